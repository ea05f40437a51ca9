//! Operators for tables and element segments.
ghost use Rattle.std.specs.Prelude.{◌≡◌};
ghost use Rattle.wasm_typing.specs.Rules.{table_get, table_set, table_size, table_grow, table_fill, table_copy, table_init, elem_drop};
ghost use Rattle.wasm_validator.specs.Steps.{ResultsIn};

use crate::fault::Fault;
use crate::state::Validator;
use wasm_types::ValType;

impl Validator<'_> {
    ghost use Rattle.wasm_validator.specs.Steps.{setting_of, open_state};
    ghost use Rattle.wasm_validator.specs.Plain.{plain_in};

    /// `table.get`
    pub(crate) fn table_get(&mut self, table: u32) -> Result<(), Fault>
        ensures plain { ResultsIn (plain_in self.old (table_get (setting_of self.old).operands table)) result (open_state self.new) }
        ensures open { self.new.ended ≡ self.old.ended }
        ensures setting { setting_of self.new ≡ setting_of self.old }
    {
        match self.context.table(table) {
            Some(table) => self.typed(&[table.address.value()], &[ValType::Ref(table.element)]),
            None => Err(Fault::Refused),
        }
    }

    /// `table.set`
    pub(crate) fn table_set(&mut self, table: u32) -> Result<(), Fault>
        ensures plain { ResultsIn (plain_in self.old (table_set (setting_of self.old).operands table)) result (open_state self.new) }
        ensures open { self.new.ended ≡ self.old.ended }
        ensures setting { setting_of self.new ≡ setting_of self.old }
    {
        match self.context.table(table) {
            Some(table) => self.typed(&[table.address.value(), ValType::Ref(table.element)], &[]),
            None => Err(Fault::Refused),
        }
    }

    /// `table.size`
    pub(crate) fn table_size(&mut self, table: u32) -> Result<(), Fault>
        ensures plain { ResultsIn (plain_in self.old (table_size (setting_of self.old).operands table)) result (open_state self.new) }
        ensures open { self.new.ended ≡ self.old.ended }
        ensures setting { setting_of self.new ≡ setting_of self.old }
    {
        match self.context.table(table) {
            Some(table) => self.typed(&[], &[table.address.value()]),
            None => Err(Fault::Refused),
        }
    }

    /// `table.grow`
    pub(crate) fn table_grow(&mut self, table: u32) -> Result<(), Fault>
        ensures plain { ResultsIn (plain_in self.old (table_grow (setting_of self.old).operands table)) result (open_state self.new) }
        ensures open { self.new.ended ≡ self.old.ended }
        ensures setting { setting_of self.new ≡ setting_of self.old }
    {
        match self.context.table(table) {
            Some(table) => self.typed(
                &[ValType::Ref(table.element), table.address.value()],
                &[table.address.value()],
            ),
            None => Err(Fault::Refused),
        }
    }

    /// `table.fill`
    pub(crate) fn table_fill(&mut self, table: u32) -> Result<(), Fault>
        ensures plain { ResultsIn (plain_in self.old (table_fill (setting_of self.old).operands table)) result (open_state self.new) }
        ensures open { self.new.ended ≡ self.old.ended }
        ensures setting { setting_of self.new ≡ setting_of self.old }
    {
        match self.context.table(table) {
            Some(table) => self.typed(
                &[
                    table.address.value(),
                    ValType::Ref(table.element),
                    table.address.value(),
                ],
                &[],
            ),
            None => Err(Fault::Refused),
        }
    }

    /// `table.copy`
    pub(crate) fn table_copy(&mut self, target: u32, source: u32) -> Result<(), Fault>
        ensures plain { ResultsIn (plain_in self.old (table_copy (setting_of self.old).operands target source)) result (open_state self.new) }
        ensures open { self.new.ended ≡ self.old.ended }
        ensures setting { setting_of self.new ≡ setting_of self.old }
    {
        let Some(to) = self.context.table(target) else {
            return Err(Fault::Refused);
        };
        let Some(from) = self.context.table(source) else {
            return Err(Fault::Refused);
        };
        if !self.context.matches_reference(from.element, to.element) {
            return Err(Fault::Refused);
        }
        self.typed(
            &[
                to.address.value(),
                from.address.value(),
                to.address.narrower(from.address).value(),
            ],
            &[],
        )
    }

    /// `table.init`
    pub(crate) fn table_init(&mut self, element: u32, table: u32) -> Result<(), Fault>
        ensures plain { ResultsIn (plain_in self.old (table_init (setting_of self.old).operands element table)) result (open_state self.new) }
        ensures open { self.new.ended ≡ self.old.ended }
        ensures setting { setting_of self.new ≡ setting_of self.old }
    {
        let Some(table) = self.context.table(table) else {
            return Err(Fault::Refused);
        };
        let Some(element) = self.context.element(element) else {
            return Err(Fault::Refused);
        };
        if !self.context.matches_reference(element, table.element) {
            return Err(Fault::Refused);
        }
        self.typed(&[table.address.value(), ValType::I32, ValType::I32], &[])
    }

    /// `elem.drop`
    pub(crate) fn elem_drop(&mut self, element: u32) -> Result<(), Fault>
        ensures plain { ResultsIn (plain_in self.old (elem_drop (setting_of self.old).operands element)) result (open_state self.new) }
        ensures open { self.new.ended ≡ self.old.ended }
        ensures setting { setting_of self.new ≡ setting_of self.old }
    {
        match self.context.element(element) {
            Some(_) => self.typed(&[], &[]),
            None => Err(Fault::Refused),
        }
    }
}
