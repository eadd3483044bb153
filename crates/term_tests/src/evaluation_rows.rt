//! Texts whose last two definitions are evaluated and compared, with the units that this takes by docs/evaluation.md.
use crate::texts::Parts;
use dk_model::Stop;

/// What is asked of the last two definitions of a text.
#[derive(Clone, Copy)]
pub enum Asked {
    /// Whether the second one is the weak head form of the first.
    Head,
    /// Whether the second one is the normal form of the first.
    Normal,
    /// Whether they are alike.
    Alike,
}

/// A text, what is asked, the units that this takes, and what is told. With a unit less the budget ends.
pub type Row = (Parts, Asked, u64, Result<bool, Stop>);

/// Rules of each form.
const RULES: (&str, u32) = (
    "z : Type. s : Type. eq : Type. c : Type. def plus : Type. def first : Type. def later : Type. def twice : Type. def guarded : Type. def constant : Type. def body : Type. def applied : Type. def over : Type. def endless : Type. def both : Type. def d : Type. def switch : Type. def inner : Type.
    [y] plus z y --> y [x, y] plus (s x) y --> s (plus x y)
    [] first z --> s z [x] first x --> c [x] later x --> c [] later z --> s z
    [x] twice x x --> c [x] guarded x {x} --> c
    [x] constant x --> c [f] body (y => f) --> f [f] applied (y => f y) --> f z [x] over x --> s
    [] endless --> plus endless z
    [m, n] both (s m) (s n) --> z [n] d n --> both n n
    [f] switch (x => y => f x y) --> a => b => f b a [f] inner (y => f) --> f [f] inner (y => s (f y)) --> f z.
    ",
    1,
);

pub const ROWS: [Row; 26] = [
    (
        &[
            RULES,
            (
                "def t := plus (s (s z)) (s (s z)). def v := s (plus (s z) (s (s z))).",
                1,
            ),
        ],
        Asked::Head,
        3,
        Ok(true),
    ),
    (
        &[RULES, ("def t := first z. def v := s z.", 1)],
        Asked::Head,
        3,
        Ok(true),
    ),
    (
        &[RULES, ("def t := first c. def v := c.", 1)],
        Asked::Head,
        3,
        Ok(true),
    ),
    (
        &[RULES, ("def t := later z. def v := c.", 1)],
        Asked::Head,
        2,
        Ok(true),
    ),
    (
        &[RULES, ("def t := twice (plus z z) z. def v := c.", 1)],
        Asked::Head,
        7,
        Ok(true),
    ),
    (
        &[
            RULES,
            ("def t := twice z (s z). def v := twice z (s z).", 1),
        ],
        Asked::Head,
        4,
        Ok(true),
    ),
    (
        &[
            RULES,
            ("def t := guarded (s z) (plus (s z) z). def v := c.", 1),
        ],
        Asked::Head,
        12,
        Ok(true),
    ),
    (
        &[
            RULES,
            ("def t := guarded z (s z). def v := guarded z (s z).", 1),
        ],
        Asked::Head,
        4,
        Ok(true),
    ),
    (
        &[RULES, ("def t := body (y => constant y). def v := c.", 1)],
        Asked::Head,
        6,
        Ok(true),
    ),
    (
        &[
            RULES,
            ("def t := body (y => y). def v := body (y => y).", 1),
        ],
        Asked::Head,
        4,
        Ok(true),
    ),
    (
        &[RULES, ("def t := applied (y => s y). def v := s z.", 1)],
        Asked::Head,
        4,
        Ok(true),
    ),
    // Two columns below each other, then two contractions for the arguments and two for the capture.
    (
        &[
            RULES,
            (
                "def t := switch (x => y => eq x y) c z. def v := eq z c.",
                1,
            ),
        ],
        Asked::Head,
        8,
        Ok(true),
    ),
    // The normal form of `s y` takes four, and fails the first row alone.
    (
        &[RULES, ("def t := inner (y => s y). def v := z.", 1)],
        Asked::Head,
        9,
        Ok(true),
    ),
    (
        &[RULES, ("def t := plus z. def v := plus z.", 1)],
        Asked::Head,
        1,
        Ok(true),
    ),
    (
        &[RULES, ("def t := over c z. def v := s z.", 1)],
        Asked::Head,
        2,
        Ok(true),
    ),
    (
        &[RULES, ("def t := d (plus (s z) z). def v := z.", 1)],
        Asked::Head,
        9,
        Ok(true),
    ),
    // Each pair takes a unit, and each weak head form what it takes: `1 + 3 + 1` for `plus 2 2` and `4`, and so on inside.
    (
        &[
            RULES,
            (
                "def t := plus (s (s z)) (s (s z)). def v := s (s (s (s z))).",
                1,
            ),
        ],
        Asked::Alike,
        16,
        Ok(true),
    ),
    (
        &[
            RULES,
            (
                "def t := plus (s (s z)) (s (s z)). def v := s (s (s z)).",
                1,
            ),
        ],
        Asked::Alike,
        18,
        Ok(false),
    ),
    (
        &[
            RULES,
            (
                "def t := eq (s (s (s (s z)))) (s (s (s (s z)))). def v := eq (plus (s (s z)) (s (s z))) (s (s (s (s z)))).",
                1,
            ),
        ],
        Asked::Alike,
        20,
        Ok(true),
    ),
    // One for each of its five parts, and what their weak head forms take.
    (
        &[
            RULES,
            (
                "def t := plus (s (s z)) (s (s z)). def v := s (s (s (s z))).",
                1,
            ),
        ],
        Asked::Normal,
        16,
        Ok(true),
    ),
    // A body comes before the rules of a symbol, whatever entry they stand in.
    (
        &[
            RULES,
            (
                "def b := s z. [] b --> c. [] endless --> z. def t := b. def v := s z.",
                1,
            ),
        ],
        Asked::Head,
        2,
        Ok(true),
    ),
    // Other versions, in which symbol 0 is another one.
    (
        &[("def b := Type. def t := b. def v := Type.", 1)],
        Asked::Head,
        2,
        Ok(true),
    ),
    (
        &[(
            "def b := Type -> Type. def t := b. def v := Type -> Type.",
            1,
        )],
        Asked::Head,
        2,
        Ok(true),
    ),
    // A symbol with many rules, used so often that they get a tree; seven get none. Each `next` takes a unit for its turn
    // and one for the constant that is left, and `c0` takes one.
    (
        &[
            ("c$ : Type. ", 7),
            ("def next : Type. ", 1),
            ("[] next c$ --> c@ ", 6),
            ("[x] next x --> c0. def t := ", 1),
            ("next (", 40),
            ("c0", 1),
            (")", 40),
            (". def v := c5.", 1),
        ],
        Asked::Head,
        81,
        Ok(true),
    ),
    (
        &[
            ("c$ : Type. ", 36),
            ("def next : Type. ", 1),
            ("[] next c$ --> c@ ", 35),
            ("[x] next x --> c0. def t := ", 1),
            ("next (", 80),
            ("c0", 1),
            (")", 80),
            (". def v := c8.", 1),
        ],
        Asked::Head,
        161,
        Ok(true),
    ),
    (
        &[
            ("c$ : Type. ", 190),
            ("def next : Type. ", 1),
            ("[] next c$ --> c@ ", 189),
            ("[x] next x --> c0. def t := ", 1),
            ("next (", 40),
            ("c0", 1),
            (")", 40),
            (". def v := c40.", 1),
        ],
        Asked::Head,
        81,
        Ok(true),
    ),
];

/// Rows that plain trees take too long for, or too deep.
pub const LARGE: [Row; 6] = [
    // Rules of one symbol in 1,099 commands, which stand in three levels of blocks.
    (
        &[
            ("c$ : Type. ", 1_100),
            ("def next : Type. ", 1),
            ("[] next c$ --> c@. ", 1_099),
            ("def t := ", 1),
            ("next (", 34),
            ("c1050", 1),
            (")", 34),
            (". def v := c1084.", 1),
        ],
        Asked::Head,
        69,
        Ok(true),
    ),
    // More nodes than a tree may have.
    (
        &[
            ("c$ : Type. ", 4_100),
            ("def next : Type. ", 1),
            ("[] next c$ --> c@ ", 4_099),
            ("[x] next x --> c0. def t := ", 1),
            ("next (", 34),
            ("c0", 1),
            (")", 34),
            (". def v := c34.", 1),
        ],
        Asked::Head,
        69,
        Ok(true),
    ),
    // Selections that wait for each other, 65,536 deep. Each `plus` takes two more than its argument, a turn and one for the
    // `z` that is left, and `p0` a turn more. So `p0` adds 3 units to those of its argument, and each further `p` twice
    // what the one before it adds and a turn: `p16` adds 4 times 65,536 less one.
    (
        &[
            RULES,
            ("def p0 : Type. [x] p0 x --> plus x z. ", 1),
            ("def p@ : Type. [x] p@ x --> p$ (p$ x). ", 16),
            ("def t := p16 z. def v := z.", 1),
        ],
        Asked::Head,
        262_144,
        Ok(true),
    ),
    // Comparisons that wait for each other, 131,072 deep. Each `p0` takes five more than its argument: a turn, one of `same`, the
    // comparison, its second term and the `z` that is left. The innermost one compares `z` with itself, and evaluates neither.
    (
        &[
            ("z : Type. def same : Type. [x] same x x --> z. ", 1),
            ("def p0 : Type. [x] p0 x --> same x z. ", 1),
            ("def p@ : Type. [x] p@ x --> p$ (p$ x). ", 17),
            ("def t := p17 z. def v := z.", 1),
        ],
        Asked::Head,
        786_430,
        Ok(true),
    ),
    // Normal forms that wait for each other, as deep. Each `p0` takes six more: a turn, one of `part`, its column, the normal
    // form, a turn of `left` and the `z` that is left.
    (
        &[
            ("z : Type. def left : Type. [x, y] left x y --> x. ", 1),
            ("def part : Type. [x] part (y => x) --> x. ", 1),
            ("def p0 : Type. [x] p0 x --> part (y => left x y). ", 1),
            ("def p@ : Type. [x] p@ x --> p$ (p$ x). ", 17),
            ("def t := p17 z. def v := z.", 1),
        ],
        Asked::Head,
        917_504,
        Ok(true),
    ),
    // Nesting without an end takes the budget.
    (
        &[RULES, ("def t := endless. def v := endless.", 1)],
        Asked::Head,
        60_000,
        Err(Stop::Ended),
    ),
];
