//! Holds what a dispatch of an object sees: its slots, their bounds, and an earlier value.
ghost use Rattle.std.specs.Prelude.{◌≡◌};
ghost use Rattle.rw_method.specs.Balance.{term_at};
ghost use Rattle.rw_method.specs.View.{known, known_value, given};

use crate::{Given, Share, Term};
use rw_base::{ObjectNo, Qty};
use rw_model::{Content, Writer};

/// What a dispatch of an object sees.
#[derive(Debug, Drop)]
pub struct View {
    /// The object.
    pub own: ObjectNo,
    /// What its slots hold at this timestep, by place. `None` where a slot holds nothing, and where there is no slot.
    pub now: [Option<Content>; 12],
    /// Its storage or content at the timestep before, in m3, or a reach's inflow as many timesteps ago as its lag, in m3/step.
    pub past: Option<Qty>,
    /// The minimum and the maximum of each slot, by place, in the base units of its dimension.
    pub bounds: [(i64, i64); 12],
}

impl View {
    /// Returns what the slot in a place holds, its value in the base units of the slot's dimension, if it is known.
    pub fn known(&self, place: u8) -> Option<Content>
        ensures { result ≡ known self.entry.now place }
    {
        match self.now.get(usize::from(place)) {
            Some(content) => *content,
            None => None,
        }
    }

    /// Returns the value that the slot in a place holds, in the base units of the slot's dimension, if it is known.
    pub fn known_value(&self, place: u8) -> Option<i64>
        ensures { result ≡ known_value self.entry.now place }
    {
        match self.known(place) {
            Some(content) => Some(content.value.get()),
            None => None,
        }
    }

    /// Returns what is given in a place, in the base units of the slot's dimension: it is known there, and the object did not
    /// write it itself.
    pub fn given(&self, place: u8) -> Option<Given>
        ensures { result ≡ given self.entry.now place }
    {
        let content = self.known(place)?;
        match content.writer {
            Writer::Object(object) if object == self.own => None,
            _ => Some(Given {
                value: content.value.get(),
                number: content.number,
            }),
        }
    }

    /// Returns the slot in a place as a term that counts in this way.
    pub fn term(&self, share: Share, place: u8) -> Term
        ensures { result ≡ term_at self.entry.now share place }
    {
        Term {
            place,
            share,
            given: self.given(place),
        }
    }
}
