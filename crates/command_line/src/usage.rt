ghost use Rattle.std.specs.Prelude.{◌≡◌};
ghost use Rattle.command_line.specs.Usage.{usage_text};

/// The text that answers words which the program doesn't take: one line for each command.
pub fn usage_text() -> &'static [u8]
    ensures { result.now ≡ usage_text }
{
    b"usage: dk_check check [--workers N] [--split S] [--budget B] [--quiet] FILE\nusage: dk_check make [--workers N] [--budget B] N\nusage: dk_check certify [--budget B] FILE\nusage: dk_check recheck FILE CERT\nusage: dk_check prune [--budget B] NAME FILE\nusage: dk_check replay [--budget B] SCRIPT\n"
}
