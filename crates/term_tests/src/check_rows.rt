//! Texts of commands, with the number and the verdict of the last one that is looked at.
use crate::texts::Parts;
use dk_model::{Code, Verdict};

/// A text, the budget of each command, and how many commands are looked at, the last one with this verdict.
pub type Row = (&'static str, u64, usize, Verdict);

pub const ROWS: [Row; 23] = [
    (
        "a : Type. f : (x : a) -> a. def g (x : a) : a := f x. {g_rule} [x : a] g x --> x.",
        1000,
        4,
        Verdict::Accepted,
    ),
    // It takes every unit.
    (
        "def c : Type. [] c --> c. a : Type. x : a. thm t : c := x.",
        1000,
        5,
        Verdict::Ended,
    ),
    // The rules overlap, and their order decides.
    (
        "nat : Type. z : nat. x : nat. a : Type. b : Type. ca : a. cb : b. def f : nat -> Type. [] f z --> a [n] f n --> b. thm t1 : f z := ca. thm t2 : f x := cb. thm t3 : f z := cb.",
        1000,
        12,
        Verdict::Refused(Code::E21),
    ),
    (NUMBERS, 55, 8, Verdict::Accepted),
    (NUMBERS, 54, 8, Verdict::Ended),
    // The body mentions the variable until it is normalised.
    (
        "o : Type. c : o. def k : o -> o. [y] k y --> c. def q : (o -> o) -> Type. a : Type. ca : a. [F] q (y => F) --> a. thm t : q (y => k y) := ca.",
        14,
        9,
        Verdict::Accepted,
    ),
    (
        "o : Type. c : o. k : o -> o. def q : (o -> o) -> Type. a : Type. ca : a. [F] q (y => F) --> a. thm t : q (y => k y) := ca.",
        1000,
        8,
        Verdict::Refused(Code::E21),
    ),
    // A variable twice, and a guard.
    (
        "o : Type. c : o. d : o. a : Type. ca : a. def e : o -> o -> Type. [x] e x x --> a. thm t : e c c := ca. thm u : e c d := ca.",
        1000,
        9,
        Verdict::Refused(Code::E21),
    ),
    (
        "o : Type. c : o. d : o. a : Type. ca : a. def g : o -> Type. [] g {c} --> a. thm t : g c := ca. thm u : g d := ca.",
        1000,
        9,
        Verdict::Refused(Code::E21),
    ),
    // One refusal of each code.
    (
        "nat : Type. z : nat. thm t : nat := z z.",
        1000,
        3,
        Verdict::Refused(Code::E20),
    ),
    (
        "nat : Type. z : nat. x : z.",
        1000,
        3,
        Verdict::Refused(Code::E22),
    ),
    ("def id := x => x.", 1000, 1, Verdict::Refused(Code::E23)),
    (
        "nat : Type. thm t : nat := x => x.",
        1000,
        2,
        Verdict::Refused(Code::E24),
    ),
    (
        "nat : Type. def f := x : nat => Type.",
        1000,
        2,
        Verdict::Refused(Code::E25),
    ),
    (
        "z : Type. [] z --> z.",
        1000,
        2,
        Verdict::Refused(Code::E30),
    ),
    (
        "o : Type. [x] x --> o.",
        1000,
        2,
        Verdict::Refused(Code::E31),
    ),
    (
        "o : Type. def f : (o -> o) -> o. [F] f (x => F x x) --> F.",
        1000,
        3,
        Verdict::Refused(Code::E32),
    ),
    (
        "o : Type. def f : o -> o. [x, y] f x --> y.",
        1000,
        3,
        Verdict::Refused(Code::E33),
    ),
    (
        "o : Type. p : Type. c : p. def f : o -> o. [] f c --> f c.",
        1000,
        5,
        Verdict::Refused(Code::E34),
    ),
    (
        "o : Type. P : o -> Type. def f : (x : o -> P x) -> o. c : o. [F] f (x => F) --> c.",
        1000,
        5,
        Verdict::Refused(Code::E35),
    ),
    ("a : Type. x : a. def y := x.", 1000, 3, Verdict::Accepted),
    // Bodies of abstractions are compared.
    (
        "a : Type. x : a. p : (a -> a) -> Type. c : p (y => y). thm u : p (y => x) := c.",
        1000,
        5,
        Verdict::Refused(Code::E21),
    ),
    // A capture that is normalised stays so where its row fails.
    (NORMALISED, 39, 11, Verdict::Accepted),
];

const NUMBERS: &str =
    "nat : Type.\nz : nat.\ns : nat -> nat.\ndef plus : nat -> nat -> nat.\n[n] plus z n --> n\n[m, n] plus (s m) n --> s (plus m n).\neq : nat -> nat -> Type.\nrefl : n : nat -> eq n n.\nthm two : eq (plus (s (s z)) (s (s z))) (s (s (s (s z)))) := refl (s (s (s (s z)))).\n";

const NORMALISED: &str =
    "o : Type. c : o. d : o. s : o -> o. def e : o -> o. [x] e x --> c. def f : (o -> o) -> o -> o. [y] f (x => c) y --> c [F] f (x => F) {c} --> F [F, y] f (x => F) y --> F. eq : o -> o -> Type. r : x : o -> eq x x. thm t : eq (f (x => s (e x)) d) (s c) := r (s c).";

/// The parts of a text, each so often: arguments, binders and brackets nearly as deep as a text may have them.
pub const DEEP: [Parts; 3] = [
    &[
        ("a : Type. x : a. f : a -> a. thm t : a := ", 1),
        ("f (", 900),
        ("x", 1),
        (")", 900),
        (".", 1),
    ],
    &[
        ("a : Type. x : a. f : a", 1),
        (" -> a", 900),
        (". thm t : a := f", 1),
        (" x", 900),
        (".", 1),
    ],
    &[
        ("a : Type. x : a. z : a. thm t : a", 1),
        (" -> a", 900),
        (" := ", 1),
        ("y => ", 900),
        ("x.", 1),
    ],
];
