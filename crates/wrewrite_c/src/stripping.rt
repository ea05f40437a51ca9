//! Sections that are left out of a module that is made.

ghost use Rattle.std.specs.Prelude.{◌≡◌};
ghost use Rattle.wasm_sections.specs.Omissions.{OmitsNothing};
ghost use Rattle.wrewrite_c.specs.Made.{without_debug, without_all, LeavesOut};

use crate::options::Options;
use wasm_module::RewrittenModule;

/// Leaves out debug information, if it is to be left out.
fn strip_debug<B>(rewritten: &mut RewrittenModule<'_, B>, is_left_out: bool)
    ensures omitted { rewritten.new.omitted ≡ without_debug is_left_out rewritten.old.omitted }
    ensures changes { rewritten.new.changes ≡ rewritten.old.changes }
    ensures bodies { rewritten.new.bodies ≡ rewritten.old.bodies }
{
    if is_left_out {
        rewritten.omit_debug();
    }
}

/// Leaves out all custom sections, if they are to be left out.
fn strip_all<B>(rewritten: &mut RewrittenModule<'_, B>, are_left_out: bool)
    ensures omitted { rewritten.new.omitted ≡ without_all are_left_out rewritten.old.omitted }
    ensures changes { rewritten.new.changes ≡ rewritten.old.changes }
    ensures bodies { rewritten.new.bodies ≡ rewritten.old.bodies }
{
    if are_left_out {
        rewritten.omit_custom_sections();
    }
}

/// Leaves out what isn't wanted, and nothing else.
pub(crate) fn strip<B>(rewritten: &mut RewrittenModule<'_, B>, wanted: Options)
    requires { OmitsNothing rewritten.old.omitted }
    ensures omitted { LeavesOut wanted rewritten.new.omitted }
    ensures changes { rewritten.new.changes ≡ rewritten.old.changes }
    ensures bodies { rewritten.new.bodies ≡ rewritten.old.bodies }
{
    strip_debug(rewritten, wanted.strips_debug);
    strip_all(rewritten, wanted.strips_all);
}
