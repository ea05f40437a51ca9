//! The response of a construct to an exception that leaves it.
ghost use Rattle.std.specs.Prelude.{◌≡◌, ◌+◌, List, map};
ghost use Rattle.wasm_body.specs.Control.{Control as Meaning};
ghost use Rattle.wasm_body.specs.Machine as M;
ghost use Rattle.walrus_machine.specs.Controls.{clause_meaning};
ghost use Rattle.walrus_machine.specs.Tables.{place_from};
ghost use Rattle.walrus_machine.specs.Tracing.{label_of, response_of};

use crate::machine::control::{Construct, Control};
use crate::machine::label::{Label, Response};
use crate::machine::table::{Sought, Table, has_tag};
use crate::named_op::NamedCatch;
use std::collections::BTreeSet;
use walrus_ir::TagId;

/// The response of a `try_table` with these clauses: the first clause that catches the exception
/// branches.
fn jump(clauses: &[NamedCatch], tags: &BTreeSet<TagId>) -> Response
    ensures { (cs : List Meaning) → response_of cs result
        ≡ M.jump tags.now.keys 0 (map clause_meaning clauses.now) }
{
    'clauses: for (i, clause) in clauses.iter().enumerate() {
        let takes = match clause.tag {
            None => true,
            Some(tag) => has_tag(tags, tag),
        };
        if takes {
            return Response::Jumps {
                clause: i,
                tag: clause.tag,
                label: clause.label,
            };
        }
    }
    Response::Passes
}

/// The response of a legacy `try` to an exception that leaves its body: the handler of the first
/// clause that catches it is entered; `delegate` passes it on.
fn catch(table: &Table<'_>, opener: usize, tags: &BTreeSet<TagId>) -> Response
    ensures { response_of table.now result ≡ M.try_responds tags.now.keys
        (M.seek (M.catches tags.now.keys) 0 0 (place_from table.now (opener + 1))) }
{
    let found = table.seek(Sought::Clause(tags), opener);
    let Some(control) = table.control(found.position) else {
        return Response::Passes;
    };
    let (clause, place) = (found.passed, found.position + 1);
    match control {
        Control::Catch(tag) => Response::Enters {
            clause,
            tag: Some(*tag),
            place,
        },
        Control::CatchAll => Response::Enters {
            clause,
            tag: None,
            place,
        },
        Control::Delegate(n) => Response::Hands(*n),
        _ => Response::Passes,
    }
}

impl<'a> Label<'a> {
    /// The label as that of a handler that caught these tags.
    pub fn handler(&self, tags: &'a BTreeSet<TagId>) -> Label<'a>
        ensures { (cs : List Meaning) → label_of cs result
            ≡ M.handler (label_of cs self.now) tags.now.keys }
    {
        Label {
            opener: self.opener,
            construct: self.construct,
            caught: Some(tags),
        }
    }

    /// The response of the construct of the label to an exception that leaves it.
    pub fn respond(&self, table: &Table<'_>, tags: &BTreeSet<TagId>) -> Response
        ensures { response_of table.now result
            ≡ M.responds tags.now.keys (label_of table.now self.now) }
    {
        match (&self.construct, &self.caught) {
            (Construct::TryTable(clauses), _) => jump(clauses, tags),
            (Construct::Try, None) => catch(table, self.opener, tags),
            _ => Response::Passes,
        }
    }
}
