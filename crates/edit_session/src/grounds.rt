//! The texts on which a command rests.
ghost use Rattle.std.specs.Prelude.{◌≡◌, ◌∷◌, [], ◌++◌, ◌<◌, true, false, map, length, All, IfOk};
ghost use Rattle.std.specs.Arc.{arc_value};
ghost use Rattle.edit_session.specs.Grounds.{IsGround, same_texts, texts_at, texts_in};

use crate::slot::Slot;
use dk_model::{Listed, NoMemory};
use std::alloc::Global;
use std::sync::Arc;

/// What a command rests on: the texts before its own, and their places with its own last.
#[derive(Drop)]
pub struct Ground {
    pub texts: Vec<Arc<Listed<u8>>>,
    pub places: Listed<u32>,
}

// The texts at these places, each of which there is.
fn texts_at(alloc: Global, slots: &[Slot], places: &[u32]) -> Result<Vec<Arc<Listed<u8>>>, NoMemory>
    ensures texts { IfOk result (λ texts. map arc_value texts.items
        ≡ texts_at (texts_in slots.now) places.now) }
{
    let mut texts = Vec::with_capacity(alloc, places.len())?;
    let mut rest = places;
    while let Some((place, others)) = rest.split_first() {
        let Some(slot) = slots.get(*place as usize) else {
            return Err(NoMemory);
        };
        texts.push(Arc::try_clone(&slot.text)?)?;
        rest = others;
    }
    Ok(texts)
}

/// The texts of the command at this place, which rests on these places, its own last.
pub fn ground_at(
    alloc: Global,
    slots: &[Slot],
    places: Vec<u32>,
    own: usize,
) -> Result<Ground, NoMemory>
    ensures { IfOk result (IsGround (texts_in slots.now) places.items own) }
{
    let Some((last, before)) = places.split_last() else {
        return Err(NoMemory);
    };
    if *last as usize != own {
        return Err(NoMemory);
    }
    let texts = texts_at(alloc, slots, before)?;
    Ok(Ground {
        texts,
        places: Listed::from_vec(places),
    })
}

/// Whether two lists have the same texts in the same order.
pub fn same_texts(old: &[Arc<Listed<u8>>], new: &[Arc<Listed<u8>>]) -> bool
    ensures { result ≡ same_texts (map arc_value old.now) (map arc_value new.now) }
{
    let mut olds = old;
    let mut news = new;
    while let Some((first, rest)) = olds.split_first() {
        let Some((other, more)) = news.split_first() else {
            return false;
        };
        if first.as_slice() != other.as_slice() {
            return false;
        }
        olds = rest;
        news = more;
    }
    news.is_empty()
}
