//! What stands behind a plain run and a dot.
ghost use Rattle.std.specs.Prelude.{◌≡◌, ◌≤◌, ◌++◌, ◌∷◌, length};
ghost use Rattle.dk_lexer.specs.Spelling.{behind_brace, behind_dot, behind_run, late, run_of, second_spelled};
ghost use Rattle.one_lexer.specs.Views.{spelling};

use crate::found::{Found, Front, settled, unsettled, up_to};
use crate::name::name_length;
use crate::quoted::quoted;
use dk_lexer::{Class, TokenKind, classify, is_wildcard};
use dk_model::Code;

// Behind a run and a dot: a second part at once makes it a qualified name, else the dot is the
// sign.
pub(crate) fn dotted<'a>(limit: usize, bytes: &'a [u8], run: &'a [u8], rest: &'a [u8]) -> Front<'a>
    requires { bytes.now ≡ run.now ++ 46 ∷ rest.now }
    ensures { spelling result ≡ behind_dot limit run.now rest.now }
{
    let Some((next, more)) = rest.split_first() else {
        return unsettled(Found::RunAndDot(run, 0));
    };
    match classify(*next) {
        Class::Letter | Class::Digit | Class::Underscore => second(limit, bytes, run, rest),
        Class::OpenBrace => late_front(brace(limit, bytes, run, more), rest.len()),
        _ => settled(Found::RunAndDot(run, rest.len())),
    }
}

fn late_front(front: Front<'_>, left: usize) -> Front<'_>
    requires { front.late ≡ None }
    ensures { spelling result ≡ late left (spelling front.entry) }
{
    Front {
        found: front.found,
        settled: front.settled,
        late: Some(left),
    }
}

// A second run.
fn second<'a>(limit: usize, bytes: &'a [u8], run: &'a [u8], rest: &'a [u8]) -> Front<'a>
    requires { bytes.now ≡ run.now ++ 46 ∷ rest.now }
    ensures { spelling result
        ≡ second_spelled limit run.now (run_of rest.now) (length (behind_run rest.now)) }
{
    let count = name_length(rest);
    if count > limit {
        return settled(Found::Wrong(Code::E05, rest.len() - limit));
    }
    let (name, behind) = rest.split_at(count);
    let left = behind.len();
    if is_wildcard(name) {
        return up_to(Found::Wrong(Code::E01, left), left);
    }
    let (text, _) = bytes.split_at(bytes.len() - left);
    up_to(Found::Token(TokenKind::Qualified, text, left), left)
}

// A brace behind the dot.
fn brace<'a>(limit: usize, bytes: &'a [u8], run: &'a [u8], rest: &'a [u8]) -> Front<'a>
    requires { bytes.now ≡ run.now ++ 46 ∷ 123 ∷ rest.now }
    ensures early { result.late ≡ None }
    ensures value { spelling result ≡ behind_brace limit run.now rest.now }
{
    let Some((next, more)) = rest.split_first() else {
        return unsettled(Found::RunAndDot(run, 1));
    };
    match classify(*next) {
        Class::Bar => quoted(limit, TokenKind::Qualified, bytes, more),
        _ => settled(Found::RunAndDot(run, rest.len() + 1)),
    }
}
