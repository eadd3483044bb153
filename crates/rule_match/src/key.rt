//! The head of a value, as far as patterns tell heads apart.
ghost use Rattle.std.specs.Prelude.{◌≡◌, IsTrue};
ghost use Rattle.rule_match.specs.Keys.{form, number_of, count_of, comes_before};

/// What a test of a value's head finds, with the number of the value's arguments.
#[derive(Clone, Copy, PartialEq, Eq, PartialOrd, Ord)]
pub(crate) enum Key {
    Symbol(u32, usize),
    Variable(u64, usize),
    /// An abstraction without annotation and without arguments.
    Abstraction,
    /// A head that no pattern has.
    Other(usize),
}

/// Whether both are one.
pub(crate) fn same(a: Key, b: Key) -> bool
    ensures { IsTrue result → a ≡ b }
{
    match (a, b) {
        (Key::Symbol(j, m), Key::Symbol(k, n)) => j == k && m == n,
        (Key::Variable(j, m), Key::Variable(k, n)) => j == k && m == n,
        (Key::Abstraction, Key::Abstraction) => true,
        _ => false,
    }
}

/// A number for each form of a head.
fn form(key: Key) -> u8
    ensures { result ≡ form key }
{
    match key {
        Key::Symbol(_, _) => 0,
        Key::Variable(_, _) => 1,
        Key::Abstraction => 2,
        Key::Other(_) => 3,
    }
}

/// The head's number and the number of its arguments.
fn numbers(key: Key) -> (u64, usize)
    ensures number { result.0 ≡ number_of key }
    ensures count { result.1 ≡ count_of key }
{
    match key {
        Key::Symbol(number, count) => (u64::from(number), count),
        Key::Variable(number, count) => (number, count),
        Key::Abstraction => (0, 0),
        Key::Other(count) => (0, count),
    }
}

/// Whether the one stands before the other in a list of branches.
pub(crate) fn is_before(a: Key, b: Key) -> bool
    ensures { result ≡ comes_before a b }
{
    let (first, m) = numbers(a);
    let (second, n) = numbers(b);
    if form(a) != form(b) {
        return form(a) < form(b);
    }
    if first != second {
        return first < second;
    }
    m < n
}
