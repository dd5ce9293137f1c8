ghost use Rattle.std.specs.Prelude.{◌≡◌, [], IfOk};
ghost use Rattle.nova_touching.specs.Touching.{TouchesAtMost};

use crate::marks::{Mark, add_mark, are_apart_from, is_apart_from};
use crate::touch::Touch;
use crate::touching::touch_of;
use nova_compare::Vertex;
use nova_search::Notes;
use std::alloc::{AllocError, Global};
use std::marker::Model;

/// What turns touch, by processor: of all that were noted, and of those that were taken alone. It remembers all from round to round.
#[derive(Drop)]
pub struct Noted {
    all: Vec<Mark>,
    lone: Vec<Mark>,
    alloc: Global,
}

impl Model for Noted {
    ghost use Rattle.nova_touching.specs.Marks.{Notebook};

    ghost Value = { Notebook };

    ghost view = { λ n. record { all = n.all.items; lone = n.lone.items } };
}

impl Noted {
    /// Nothing is noted.
    pub fn new(alloc: Global) -> Noted
        ensures all { result.all ≡ [] }
        ensures lone { result.lone ≡ [] }
    {
        Noted {
            all: Vec::new(alloc),
            lone: Vec::new(alloc),
            alloc,
        }
    }

    /// What the next turn of a processor touches in the state of a vertex.
    fn touch_at(&self, vertex: &Vertex, cpu: u32) -> Result<Touch, AllocError>
        ensures { IfOk result (TouchesAtMost vertex.now cpu) }
    {
        touch_of(self.alloc, vertex.kernel(), cpu)
    }
}

impl Notes for Noted {
    ghost use Rattle.law_swaps.specs.Touches.{Touch as Touched};
    ghost use Rattle.nova_touching.specs.Marks.{apart, is_marked};
    ghost use Rattle.nova_touching.specs.Touching.{TouchesAtMost};

    ghost Touch = { Touched };

    ghost touched = { TouchesAtMost };

    ghost apart = { apart };

    ghost noted = { λ n. is_marked n.all };

    ghost lone = { λ n. is_marked n.lone };

    fn may_be_alone(&self, vertex: &Vertex, cpu: u32) -> Result<bool, AllocError> {
        let touch = self.touch_at(vertex, cpu)?;
        Ok(touch.is_plain && is_apart_from(&self.all, cpu, &touch))
    }

    fn note(&mut self, vertex: &Vertex, cpu: u32) -> Result<(), AllocError> {
        let touch = self.touch_at(vertex, cpu)?;
        add_mark(self.alloc, &mut self.all, cpu, &touch)
    }

    fn note_lone(&mut self, vertex: &Vertex, cpu: u32) -> Result<(), AllocError> {
        let touch = self.touch_at(vertex, cpu)?;
        add_mark(self.alloc, &mut self.all, cpu, &touch)?;
        add_mark(self.alloc, &mut self.lone, cpu, &touch)
    }

    fn are_apart(&self) -> Result<bool, AllocError> {
        Ok(are_apart_from(&self.all, &self.lone))
    }

    fn share(&mut self) -> Result<(), AllocError> {
        self.lone = Vec::new(self.alloc);
        Ok(())
    }
}
