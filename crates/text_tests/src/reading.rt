//! Where reading a file ends, through shelf, lexer, parser and scoping, with its commands counted.
use dk_io::{Book, MemShelf, Shelf};
use dk_model::{Code, Fault, Limits, NoMemory};
use dk_parser::Raw;
use file_reader::{ReadEnd, Reader};
use scope_terms::Names;
use std::alloc::Global;
use std::test::Fail;

// Takes so many commands and directives, and no other; scopes them if it is told to, up to the first that is
// refused.
#[derive(Drop)]
struct Counter {
    taken: u32,
    most: u32,
    scopes: bool,
    names: Names,
    code: Option<Code>,
}

impl Counter {
    // Takes a command; or no other comes.
    fn take(&mut self, alloc: Global, raw: &Raw) -> bool {
        self.code = self.refusal(alloc, raw);
        if self.code.is_some() || self.taken >= self.most {
            return false;
        }
        self.taken = self.taken.saturating_add(1);
        true
    }

    fn refusal(&mut self, alloc: Global, raw: &Raw) -> Option<Code> {
        if !self.scopes || self.names.count() == u32::MAX {
            return None;
        }
        match self.names.scope(alloc, raw) {
            Err(Fault::Refused(code)) => Some(code),
            _ => None,
        }
    }
}

// How many commands were taken, how many names and rule commands have a number, the code of the one that was refused,
// and the end, where the book was read up to it.
type Told = (u32, u32, Option<Code>, Option<ReadEnd>);

// A shelf whose only book is this text, opened.
fn shelf_of(alloc: Global, text: &str, failing: u64) -> Result<MemShelf, Fail> {
    let name = String::from_str(alloc, "f.dk")?;
    let bytes = Vec::from_slice(alloc, text.as_bytes())?;
    let mut books = Vec::new(alloc);
    books.push(Book { name, bytes })?;
    let failing = Vec::from_slice(alloc, &[failing])?;
    let mut shelf = MemShelf::new(alloc, books, 3, failing)?;
    let _opened = shelf.open_book("f.dk");
    Ok(shelf)
}

// What the counter is told, and the shelf's call that fails (0: none; the first is the opening).
#[derive(Clone, Copy)]
struct Asked {
    levels: u32,
    most: u32,
    scopes: bool,
    failing: u64,
}

const READING: Asked = Asked {
    levels: 1_000,
    most: 99,
    scopes: false,
    failing: 0,
};

fn counter_of(alloc: Global, asked: Asked) -> Result<Counter, NoMemory> {
    Ok(Counter {
        taken: 0,
        most: asked.most,
        scopes: asked.scopes,
        names: Names::new(alloc)?,
        code: None,
    })
}

fn end_of(
    alloc: Global,
    shelf: &mut MemShelf,
    counter: &mut Counter,
    levels: u32,
) -> Option<ReadEnd> {
    let mut limits = Limits::standard();
    limits.levels = levels;
    let mut reader = Reader::new(alloc, limits);
    'commands: for _command in 0..1_000 {
        match reader.next(alloc, shelf) {
            Ok(next) => {
                if !counter.take(alloc, &next.into_raw()) {
                    return None;
                }
            }
            Err(end) => return Some(end),
        }
    }
    None
}

fn told(alloc: Global, text: &str, asked: Asked) -> Result<Told, Fail> {
    let mut counter = counter_of(alloc, asked)?;
    let mut shelf = shelf_of(alloc, text, asked.failing)?;
    let end = end_of(alloc, &mut shelf, &mut counter, asked.levels);
    Ok((counter.taken, counter.names.count(), counter.code, end))
}

// Whether so many commands are taken, each with a number where names are scoped.
fn is_told(
    alloc: Global,
    text: &str,
    asked: Asked,
    taken: u32,
    code: Option<Code>,
    end: Option<ReadEnd>,
) -> Result<bool, Fail> {
    let (found, count, found_code, found_end) = told(alloc, text, asked)?;
    let numbered = if asked.scopes { taken } else { 0 };
    Ok(found == taken && count == numbered && found_code == code && found_end == end)
}

fn refused(line: u32, code: Code) -> Option<ReadEnd> {
    Some(ReadEnd::Refused(line, code))
}

const WHOLE: Option<ReadEnd> = Some(ReadEnd::Whole);

fn ends_where_no_other_is_taken_or_a_read_fails(
    alloc: Global,
) -> Result<Option<&'static str>, Fail> {
    for (text, most, failing, taken, end) in [
        ("a : Type. b : a.", 9, 0, 2, WHOLE),
        ("a : Type. b : a.", 1, 0, 1, None),
        ("a : Type. b : a. $", 1, 0, 1, None),
        ("a : Type. b : a.", 9, 2, 0, Some(ReadEnd::Unread)),
        ("a : Type. b : a.", 9, 6, 1, Some(ReadEnd::Unread)),
    ] {
        let asked = Asked {
            most,
            failing,
            ..READING
        };
        if !is_told(alloc, text, asked, taken, None, end)? {
            return Ok(Some(text));
        }
    }
    Ok(None)
}

fn reads_each_form_of_command(alloc: Global) -> Result<Option<&'static str>, Fail> {
    for (text, taken) in [
        ("{|x|} : ((Type)). y : m.n. z : _.", 3),
        ("nat : Type. z : nat. thm t : nat := z.", 3),
        // terms
        ("s : n -> n. p : x : n -> e x x. q : (x : n) -> e x x.", 3),
        ("thm t : (x : n -> n) -> n := x : (_ : n -> n) => x z.", 1),
        ("x : (x : n => Type) z.", 1),
        ("x : y : a -> b -> c.", 1),
        ("x : y => a.", 1),
        // definitions
        ("def id (x : a) : a := x.", 1),
        ("def y := x. def f : a -> a. def {|x|} : a := x.", 3),
        ("thm t (x : a) (y : b x) : a := x => y => x.", 1),
        ("def b (x : A) := t. c (_ : A -> A) : B.", 2),
        ("def k := (x => _ => x : a => x) z.", 1),
        // rules
        ("[] f --> a.", 1),
        ("{g_rule} [x : a] g x --> x.", 1),
        (
            "[n] plus z n --> n [m, n] plus (s m) n --> s (plus m n).",
            1,
        ),
        ("[F] sw (x => y => F x y) --> a => b => F b a.", 1),
        ("[] g {c} --> a. [] {c} --> a.", 2),
        ("{m.n} [] f --> a {r} [] g --> b. x : Type.", 2),
        ("[x : a -> b, y] f (_ => x) {m.n} --> x.", 1),
        // queries
        ("#CHECK x : a -> b. #CHECK x == y => y.", 2),
        ("#ASSERT f x (y => z) : (x : a) -> b. #ASSERT _ == _.", 2),
        ("#CHECK ((x : a) -> b) : Type. #CHECK (x : a => b) == c.", 2),
        ("#INFER x : a => b. #EVAL x. a : Type.", 3),
    ] {
        if !is_told(alloc, text, READING, taken, None, WHOLE)? {
            return Ok(Some(text));
        }
    }
    Ok(None)
}

// Whether a text is whole with so many levels, and not with one less.
fn takes_levels(alloc: Global, text: &str, levels: u32) -> Result<bool, Fail> {
    let (_, _, _, whole) = told(alloc, text, Asked { levels, ..READING })?;
    let levels = levels.saturating_sub(1);
    let (_, _, _, cut) = told(alloc, text, Asked { levels, ..READING })?;
    Ok(whole == WHOLE && cut == refused(1, Code::E04))
}

fn counts_the_levels_of_parameters_and_rules(alloc: Global) -> Result<Option<&'static str>, Fail> {
    for (text, levels) in [
        ("c (x : A -> B) : A.", 2),
        ("def c (x : A) : A -> A := a.", 2),
        ("def c (x : A) : A := (a).", 2),
        ("def c (x : A) := y => y.", 2),
        ("def c (x : A) := y. def d (x : A) := y.", 1),
        ("[] f (x => a) --> b.", 2),
        ("[] f {a} --> (b).", 1),
        ("[] f {(a)} --> b.", 2),
        ("[] f {a} --> b -> c -> d.", 2),
        ("[] f a b --> c.", 2),
        ("[] f (a) {b} --> c.", 2),
        ("[x : (a)] f --> c.", 1),
        ("#CHECK (f a) b : a -> b.", 1),
        ("#ASSERT (f a) == (f b) -> (c).", 2),
        ("#EVAL (f a) -> (b).", 2),
    ] {
        if !takes_levels(alloc, text, levels)? {
            return Ok(Some(text));
        }
    }
    Ok(None)
}

fn scopes_up_to_the_first_refusal(alloc: Global) -> Result<Option<&'static str>, Fail> {
    for (text, taken, code, end) in [
        ("a : Type. b : a. c : a -> b.", 3, None, WHOLE),
        ("b : Type. [x, y] b --> x.", 2, None, WHOLE),
        (
            "a : Type. def d (x : a) : a -> a := y => x.",
            2,
            None,
            WHOLE,
        ),
        ("a : Type. a : Type.", 1, Some(Code::E11), None),
        ("b : b.", 0, Some(Code::E10), None),
        (
            "a : Type. def d (x : y) (y : a) := a.",
            1,
            Some(Code::E10),
            None,
        ),
        ("b : _.", 0, Some(Code::E12), None),
        ("b : Type. [x, x] b --> x.", 1, Some(Code::E13), None),
    ] {
        let asked = Asked {
            scopes: true,
            ..READING
        };
        if !is_told(alloc, text, asked, taken, code, end)? {
            return Ok(Some(text));
        }
    }
    Ok(None)
}

#[test]
fn reads_each_form_and_scopes_up_to_the_first_refusal(rt: HostRuntime) -> Result<(), Fail> {
    let alloc = rt.alloc();
    let found = [
        ends_where_no_other_is_taken_or_a_read_fails(alloc)?,
        reads_each_form_of_command(alloc)?,
        counts_the_levels_of_parameters_and_rules(alloc)?,
        scopes_up_to_the_first_refusal(alloc)?,
    ];
    assert_eq!(rt; found, [None; 4], "of the texts");
    Ok(())
}
