//! The bodies of a module, and where each address goes.

ghost use Rattle.code_moves.specs.OrderedBodies.{AreOrdered, AreOrdered-prop};

use crate::body::Body;
use crate::fault::MoveError;
use std::alloc::Global;

/// Where the addresses of a module's code go when its bodies are written anew.
#[derive(Debug, Drop)]
pub struct Moves {
    bodies: Vec<Body>,
    pub ghost ordered: { AreOrdered 0 0 bodies.items } by { AreOrdered-prop 0 0 bodies.items },
}

impl Moves {
    ghost use Rattle.std.specs.Prelude.{◌≡◌, ◌++◌, ◌∷◌, [], ◌↔◌, IsTrue, Err, OnOk, OnErr};
    ghost use Rattle.std.specs.Option.{option_copied};
    ghost use Rattle.code_moves.specs.Moves.{address_moved, body_with_address, operator_moved, ends_written_at};
    ghost use Rattle.code_moves.specs.declared.fault.MoveError.TheVariants.{Disordered};

    /// The moves of a module without bodies. This allocates nothing.
    pub fn new(alloc: Global) -> Moves
        ensures { result.bodies.items ≡ [] }
    {
        Moves {
            bodies: Vec::new(alloc),
        }
    }

    // Whether the last body is before this one, in the source and in what is written.
    fn is_before(&self, body: &Body) -> bool
        ensures { IsTrue result ↔ AreOrdered 0 0 (self.now.bodies.items ++ body.now ∷ []) }
    {
        match self.bodies.last() {
            Some(last) => last.end < body.begin && last.new_end < body.new_begin,
            None => true,
        }
    }

    /// Adds a body after all others.
    ///
    /// # Errors
    ///
    /// `Disordered` if the body isn't after the last one, in the source and in what is written. Out of memory. After an
    /// error the moves are as they were.
    pub fn push(&mut self, body: Body) -> Result<(), MoveError>
        ensures ok { OnOk result (self.new.bodies.items ≡ self.old.bodies.items ++ body ∷ []) }
        ensures err { OnErr result (self.new.bodies.items ≡ self.old.bodies.items) }
        ensures disordered { result ≡ Err Disordered ↔ ¬ AreOrdered 0 0 (self.old.bodies.items ++ body ∷ []) }
    {
        if !self.is_before(&body) {
            return Err(MoveError::Disordered);
        }
        self.bodies.push(body)?;
        Ok(())
    }

    /// The body that this address is of. Takes time logarithmic in the number of bodies.
    pub fn body(&self, address: u64) -> Option<&Body>
        ensures { option_copied result ≡ body_with_address self.now.bodies.items address }
    {
        let index = self
            .bodies
            .partition_point(|body| u64::from(body.end) < address);
        match self.bodies.get(index) {
            Some(body) if u64::from(body.begin) <= address => Some(body),
            _ => None,
        }
    }

    /// Where this address goes, or None if it is of no body. Takes time logarithmic in the numbers of bodies and runs.
    pub fn address(&self, address: u64) -> Option<u64>
        ensures { result ≡ address_moved self.now.bodies.items address }
    {
        self.body(address)?.address(address)
    }

    /// Where the operator at this address is itself written, or None if it isn't. Takes time logarithmic in the numbers of bodies and runs.
    pub fn operator(&self, address: u64) -> Option<u64>
        ensures { result ≡ operator_moved self.now.bodies.items address }
    {
        self.body(address)?.operator(address)
    }

    /// Whether an operator that ends at this address is written. Takes time logarithmic in the numbers of bodies and runs.
    pub fn ends_written(&self, address: u64) -> bool
        ensures { result ≡ ends_written_at self.now.bodies.items address }
    {
        match self.body(address) {
            Some(body) => body.ends_written(address),
            None => false,
        }
    }
}
