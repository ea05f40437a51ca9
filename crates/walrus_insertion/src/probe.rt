//! What is inserted at a place.
ghost use Rattle.std.specs.Prelude.{◌≡◌, ◌∷◌, [], ◌++◌, OnOk, OnErr};
ghost use Rattle.walrus_ir.specs.declared.value.Value.TheVariants.{I32, I64};
ghost use Rattle.walrus_insertion.specs.declared.plain_instr.PlainInstr.TheVariants as plain;
ghost use Rattle.wasm_types.specs.declared.binary.BinaryOp.TheVariants as binary;

use crate::plain_instr::PlainInstr;
use std::alloc::{AllocError, Global};
use std::marker::Model;
use walrus_ir::{
    BinaryOp, Binop, Call, Const, FunctionId, GlobalGet, GlobalId, GlobalSet, LocalGet, LocalId,
    LocalSet, TernOp, TernaryOp, UnaryOp, Unop, Value,
};

/// A step by which a sequence gets its new instructions.
#[derive(Clone, Copy)]
pub enum Edit {
    /// The next instruction stays.
    Keep,
    /// This one is inserted.
    Insert(PlainInstr),
}

/// The instructions that are inserted at a place, in order. Each method appends one, and fails only
/// where memory runs out. In a contract, it is the list of these instructions.
#[derive(Drop)]
pub struct Probe {
    pub(crate) instrs: Vec<PlainInstr>,
}

impl Model for Probe {
    ghost use Rattle.std.specs.Prelude.{List};
    ghost use Rattle.walrus_insertion.specs.declared.plain_instr.PlainInstr.{PlainInstr};

    ghost Value = { List PlainInstr };

    ghost view = { λ p. p.instrs.items };
}

impl Probe {
    /// Without an instruction. This allocates nothing.
    pub(crate) fn new(alloc: Global) -> Probe
        ensures { result ≡ [] }
    {
        Probe {
            instrs: Vec::new(alloc),
        }
    }

    /// Appends an instruction.
    pub fn push(&mut self, instr: &PlainInstr) -> Result<(), AllocError>
        ensures ok { OnOk result (self.new ≡ self.old ++ instr.now ∷ []) }
        ensures err { OnErr result (self.new ≡ self.old) }
    {
        self.instrs.reserve(1)?;
        self.instrs.push_reserved(*instr);
        Ok(())
    }

    /// `i32.const`.
    pub fn i32_const(&mut self, number: i32) -> Result<(), AllocError>
        ensures ok { OnOk result (self.new ≡ self.old ++ plain.Const (record { value = I32 number }) ∷ []) }
        ensures err { OnErr result (self.new ≡ self.old) }
    {
        let value = Value::I32(number);
        self.instrs.reserve(1)?;
        self.instrs
            .push_reserved(PlainInstr::Const(Const { value }));
        Ok(())
    }

    /// `i64.const`.
    pub fn i64_const(&mut self, number: i64) -> Result<(), AllocError>
        ensures ok { OnOk result (self.new ≡ self.old ++ plain.Const (record { value = I64 number }) ∷ []) }
        ensures err { OnErr result (self.new ≡ self.old) }
    {
        let value = Value::I64(number);
        self.instrs.reserve(1)?;
        self.instrs
            .push_reserved(PlainInstr::Const(Const { value }));
        Ok(())
    }

    /// A numeric or vector operator of one operand, such as `i32.eqz`.
    pub fn unary(&mut self, op: UnaryOp) -> Result<(), AllocError>
        ensures ok { OnOk result (self.new ≡ self.old ++ plain.Unop (record { op = op }) ∷ []) }
        ensures err { OnErr result (self.new ≡ self.old) }
    {
        self.instrs.reserve(1)?;
        self.instrs.push_reserved(PlainInstr::Unop(Unop { op }));
        Ok(())
    }

    /// A numeric or vector operator of two operands, such as `i64.add`.
    pub fn binary(&mut self, op: BinaryOp) -> Result<(), AllocError>
        ensures ok { OnOk result (self.new ≡ self.old ++ plain.Binop (record { op = op }) ∷ []) }
        ensures err { OnErr result (self.new ≡ self.old) }
    {
        self.instrs.reserve(1)?;
        self.instrs.push_reserved(PlainInstr::Binop(Binop { op }));
        Ok(())
    }

    /// A vector operator of three operands.
    pub fn ternary(&mut self, op: TernaryOp) -> Result<(), AllocError>
        ensures ok { OnOk result (self.new ≡ self.old ++ plain.TernOp (record { op = op }) ∷ []) }
        ensures err { OnErr result (self.new ≡ self.old) }
    {
        self.instrs.reserve(1)?;
        self.instrs.push_reserved(PlainInstr::TernOp(TernOp { op }));
        Ok(())
    }

    /// `i64.add`.
    pub fn i64_add(&mut self) -> Result<(), AllocError>
        ensures ok { OnOk result (self.new ≡ self.old ++ plain.Binop (record { op = binary.I64Add }) ∷ []) }
        ensures err { OnErr result (self.new ≡ self.old) }
    {
        self.binary(BinaryOp::I64Add)
    }

    /// `drop`.
    pub fn drop_operand(&mut self) -> Result<(), AllocError>
        ensures ok { OnOk result (self.new ≡ self.old ++ plain.Drop ∷ []) }
        ensures err { OnErr result (self.new ≡ self.old) }
    {
        self.instrs.reserve(1)?;
        self.instrs.push_reserved(PlainInstr::Drop);
        Ok(())
    }

    /// `call`.
    pub fn call(&mut self, func: FunctionId) -> Result<(), AllocError>
        ensures ok { OnOk result (self.new ≡ self.old ++ plain.Call (record { func = func }) ∷ []) }
        ensures err { OnErr result (self.new ≡ self.old) }
    {
        self.instrs.reserve(1)?;
        self.instrs.push_reserved(PlainInstr::Call(Call { func }));
        Ok(())
    }

    /// `local.get`.
    pub fn local_get(&mut self, local: LocalId) -> Result<(), AllocError>
        ensures ok { OnOk result (self.new ≡ self.old ++ plain.LocalGet (record { local = local }) ∷ []) }
        ensures err { OnErr result (self.new ≡ self.old) }
    {
        self.instrs.reserve(1)?;
        self.instrs
            .push_reserved(PlainInstr::LocalGet(LocalGet { local }));
        Ok(())
    }

    /// `local.set`.
    pub fn local_set(&mut self, local: LocalId) -> Result<(), AllocError>
        ensures ok { OnOk result (self.new ≡ self.old ++ plain.LocalSet (record { local = local }) ∷ []) }
        ensures err { OnErr result (self.new ≡ self.old) }
    {
        self.instrs.reserve(1)?;
        self.instrs
            .push_reserved(PlainInstr::LocalSet(LocalSet { local }));
        Ok(())
    }

    /// `global.get`.
    pub fn global_get(&mut self, global: GlobalId) -> Result<(), AllocError>
        ensures ok { OnOk result (self.new ≡ self.old ++ plain.GlobalGet (record { global = global }) ∷ []) }
        ensures err { OnErr result (self.new ≡ self.old) }
    {
        self.instrs.reserve(1)?;
        self.instrs
            .push_reserved(PlainInstr::GlobalGet(GlobalGet { global }));
        Ok(())
    }

    /// `global.set`.
    pub fn global_set(&mut self, global: GlobalId) -> Result<(), AllocError>
        ensures ok { OnOk result (self.new ≡ self.old ++ plain.GlobalSet (record { global = global }) ∷ []) }
        ensures err { OnErr result (self.new ≡ self.old) }
    {
        self.instrs.reserve(1)?;
        self.instrs
            .push_reserved(PlainInstr::GlobalSet(GlobalSet { global }));
        Ok(())
    }
}
