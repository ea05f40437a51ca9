//! The operators of a body as the machine runs them. The parts and the closer of each construct are
//! found once, from the last operator back to the first.
ghost use Rattle.std.specs.Prelude.{◌≡◌, ◌+◌, ◌<◌, ◌≤◌, ℕ, List, length, map, slice_get};
ghost use Rattle.std.specs.Prelude.{Some, true, IfOk};
ghost use Rattle.wasm_body.specs.Control.{Control as Meaning};
ghost use Rattle.wasm_body.specs.Machine.{found, has, after_closer};
ghost use Rattle.wasm_body.specs.Machine as M;
ghost use Rattle.walrus_machine.specs.Controls.{control_meaning};
ghost use Rattle.walrus_machine.specs.Tables.{place_from, IsAhead, LevelsAhead, AreAhead};
ghost use Rattle.walrus_machine.specs.Tables.{control_at, test_of, passes_by};

use crate::machine::control::Control;
use std::alloc::{AllocError, Global};
use std::collections::BTreeSet;
use std::marker::Model;
use walrus_ir::{TagId, kind, law_ids};

/// The next part and the end of a construct around a place, as positions.
#[derive(Clone, Copy)]
pub struct Ahead {
    /// The next part of the construct, or its closer.
    pub part: usize,
    /// The place after the construct's closer.
    pub following: usize,
}

/// The same for each construct around a place, the innermost last.
#[derive(Drop)]
pub struct Levels {
    /// The next part and the end of each construct.
    pub levels: Vec<Ahead>,
    /// The number of operators, which is the place after the last.
    pub end: usize,
}

impl Levels {
    /// The next part and the end of the innermost construct.
    fn innermost(&self) -> Ahead
        ensures { (cs : List Meaning) → (place : ℕ) → LevelsAhead cs place self.now
            → IsAhead cs 0 place result }
    {
        match self.levels.last() {
            Some(ahead) => *ahead,
            None => Ahead {
                part: self.end,
                following: self.end,
            },
        }
    }

    /// Goes back over the operator at a position, from the place after it to the place before it.
    fn go_back(&mut self, control: &Control<'_>, position: usize) -> Result<(), AllocError>
        requires { position < self.old.end }
        ensures end { self.new.end ≡ self.old.end }
        ensures levels { IfOk result (λ _. (cs : List Meaning)
            → slice_get cs position ≡ Some (control_meaning control.now)
            → LevelsAhead cs (position + 1) self.old
            → LevelsAhead cs position self.new) }
    {
        match control {
            Control::Does(_) => {}
            Control::Opens(_) => {
                self.levels.pop();
            }
            Control::Else | Control::Catch(_) | Control::CatchAll => {
                let following = self.innermost().following;
                self.levels.pop();
                self.levels.push(Ahead {
                    part: position,
                    following,
                })?;
            }
            Control::End | Control::Delegate(_) => {
                self.levels.push(Ahead {
                    part: position,
                    following: position + 1,
                })?;
            }
        }
        Ok(())
    }
}

/// Which part of a construct is searched for.
#[derive(Clone, Copy)]
pub enum Sought<'a> {
    /// An `else`.
    Else,
    /// A clause that catches an exception with these tags.
    Clause(&'a BTreeSet<TagId>),
}

/// Whether the tags contain this one.
pub fn has_tag(tags: &BTreeSet<TagId>, tag: TagId) -> bool
    ensures { result ≡ has tags.now.keys tag }
{
    law_ids::<kind::Tag>();
    tags.contains(&tag)
}

impl Sought<'_> {
    /// Whether this operator is the wanted part.
    fn is(self, control: &Control<'_>) -> bool
        ensures { result ≡ test_of self.entry (control_meaning control.now) }
    {
        match (self, control) {
            (Sought::Else, Control::Else) => true,
            (Sought::Clause(tags), Control::Catch(tag)) => has_tag(tags, *tag),
            (Sought::Clause(_), Control::CatchAll) => true,
            _ => false,
        }
    }

    /// Whether a search continues past this operator, which divides or closes the construct.
    fn passes(self, control: &Control<'_>) -> bool
        ensures { result ≡ passes_by (test_of self.entry) (control_meaning control.now) }
    {
        control.is_part() && !self.is(control)
    }
}

/// The result of a search among the parts of a construct: the wanted part, or the closer.
#[derive(Clone, Copy)]
pub struct Found {
    /// The number of parts that the search passed.
    pub passed: usize,
    /// Its position; the number of operators if the construct has no closer.
    pub position: usize,
}

/// The operators of a body: the control of each, and the next part and the end of its construct.
#[derive(Drop)]
pub struct Table<'a> {
    controls: Vec<Control<'a>>,
    /// The next part and the end of the innermost construct, for the place after each operator.
    ahead: Vec<Ahead>,
}

impl<'a> Model for Table<'a> {
    ghost use Rattle.std.specs.Prelude.{◌≡◌, List, length, map};
    ghost use Rattle.wasm_body.specs.Control.{Control as Meaning};
    ghost use Rattle.walrus_machine.specs.Controls.{control_meaning};
    ghost use Rattle.walrus_machine.specs.Tables.{AreAhead};

    ghost Value = { List Meaning };

    ghost view = { λ t. map control_meaning t.controls.items };

    ghost invariant = { λ t. AreAhead (map control_meaning t.controls.items) 0 t.ahead.items
        × (length t.ahead.items ≡ length t.controls.items) };
}

impl<'a> Table<'a> {
    /// The table of these operators.
    ///
    /// # Errors
    ///
    /// `AllocError` if memory runs out.
    pub fn new(alloc: Global, controls: Vec<Control<'a>>) -> Result<Table<'a>, AllocError>
        ensures { IfOk result (λ t. t ≡ map control_meaning controls.entry.items) }
    {
        let mut ahead = Vec::new(alloc);
        let mut levels = Levels {
            levels: Vec::new(alloc),
            end: controls.len(),
        };
        let mut position = controls.len();
        'operators: while position > 0 {
            position -= 1;
            ahead.push(levels.innermost())?;
            levels.go_back(&controls[position], position)?;
        }
        ahead.reverse();
        Ok(Table { controls, ahead })
    }

    /// The number of operators.
    pub fn len(&self) -> usize
        ensures { result ≡ length self.now }
    {
        self.controls.len()
    }

    /// The control of the operator at a position; none if there is no operator.
    pub fn control(&self, position: usize) -> Option<&Control<'a>>
        ensures control { control_at result ≡ slice_get self.now position }
        ensures fits { length self.now ≤ usize.MAX }
    {
        self.controls.get(position)
    }

    /// The next part, or else the closer, of the construct around the place after the operator at a
    /// position.
    fn part(&self, position: usize) -> usize
        ensures { place_from self.now result
            ≡ (M.seek (λ _. true) 0 0 (place_from self.now (position + 1))).rest }
    {
        match self.ahead.get(position) {
            Some(ahead) => ahead.part,
            None => position,
        }
    }

    /// The place after the closer of the construct that is opened at a position.
    pub fn after_closer(&self, opener: usize) -> usize
        ensures { place_from self.now result ≡ after_closer (place_from self.now (opener + 1)) }
    {
        match self.ahead.get(opener) {
            Some(ahead) => ahead.following,
            None => opener,
        }
    }

    /// The first wanted part, or else the closer, of the construct that is opened at a position.
    pub fn seek(&self, sought: Sought<'_>, opener: usize) -> Found
        ensures { M.seek (test_of sought.entry) 0 0 (place_from self.now (opener + 1))
            ≡ found result.passed (place_from self.now result.position) }
    {
        let mut passed: usize = 0;
        let mut position = self.part(opener);
        'parts: while let Some(control) = self.control(position) {
            if !sought.passes(control) {
                return Found { passed, position };
            }
            passed += 1;
            position = self.part(position);
        }
        Found { passed, position }
    }
}
