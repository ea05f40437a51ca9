//! Operators on structs and arrays.
ghost use Rattle.std.specs.Prelude.{◌≡◌, map, slice_get, option_map};
ghost use Rattle.std.specs.List.{list_all};
ghost use Rattle.wasm_body.specs.Validity.{required, demand};
ghost use Rattle.wasm_typing.specs.Contexts.{unpacked, has_default as default_of};
ghost use Rattle.wasm_typing.specs.Rules.{struct_new_default, struct_get, struct_set, array_new, array_new_default, array_new_from, from_data, from_elements, array_get, array_set, array_fill, array_copy, array_init_from};
ghost use Rattle.wasm_context.specs.Contexts.{field_of};
ghost use Rattle.wasm_validator.specs.Steps.{ResultsIn};

use crate::fault::Fault;
use crate::references::reference;
use crate::state::Validator;
use wasm_context::{FieldType, StorageType, has_default, is_number};
use wasm_types::{HeapType, ValType};

/// Whether each field has a default value.
fn have_defaults(fields: &[FieldType]) -> bool
    ensures { list_all (λ f. default_of (unpacked f.storage)) (map field_of fields.now) ≡ result }
{
    fields
        .iter()
        .all(|field| has_default(field.storage.unpacked()))
}

/// The field at this place, if there is one.
fn field_at(fields: &[FieldType], place: usize) -> Option<FieldType>
    ensures { slice_get fields.now place ≡ result }
{
    match fields.get(place) {
        Some(field) => Some(*field),
        None => None,
    }
}

impl Validator<'_> {
    ghost use Rattle.wasm_validator.specs.Steps.{setting_of, open_state};
    ghost use Rattle.wasm_validator.specs.Plain.{plain_in, field_in};

    /// The field of a struct type, if both are there.
    fn field(&self, ty: u32, field: u32) -> Option<FieldType>
        ensures { field_in (setting_of self.now).operands ty field ≡ required (option_map field_of result) }
    {
        match self.context.struct_fields(ty) {
            Some(fields) => field_at(fields, field as usize),
            None => None,
        }
    }

    /// Whether the data segment is there, and can fill such elements.
    fn is_from_data(&self, element: FieldType, segment: u32) -> bool
        ensures { from_data (setting_of self.now).operands (field_of element) segment ≡ demand result }
    {
        is_number(element.storage.unpacked()) && self.context.has_data(segment)
    }

    /// Whether the element segment is there, and its references can fill such elements.
    fn is_from_elements(&self, element: FieldType, segment: u32) -> bool
        ensures { from_elements (setting_of self.now).operands (field_of element) segment ≡ demand result }
    {
        match self.context.element(segment) {
            Some(reference) => self.context.matches_storage(
                StorageType::Value(ValType::Ref(reference)),
                element.storage,
            ),
            None => false,
        }
    }

    /// `struct.new_default`
    pub(crate) fn struct_new_default(&mut self, ty: u32) -> Result<(), Fault>
        ensures plain { ResultsIn (plain_in self.old (struct_new_default (setting_of self.old).operands ty)) result (open_state self.new) }
        ensures open { self.new.ended ≡ self.old.ended }
        ensures setting { setting_of self.new ≡ setting_of self.old }
    {
        let Some(fields) = self.context.struct_fields(ty) else {
            return Err(Fault::Refused);
        };
        if !have_defaults(fields) {
            return Err(Fault::Refused);
        }
        self.typed(&[], &[reference(false, HeapType::Concrete(ty))])
    }

    /// `struct.get`, `struct.get_s` and `struct.get_u`
    pub(crate) fn struct_get(&mut self, signed: bool, ty: u32, field: u32) -> Result<(), Fault>
        ensures plain { ResultsIn (plain_in self.old (struct_get signed (setting_of self.old).operands ty field)) result (open_state self.new) }
        ensures open { self.new.ended ≡ self.old.ended }
        ensures setting { setting_of self.new ≡ setting_of self.old }
    {
        let Some(field) = self.field(ty, field) else {
            return Err(Fault::Refused);
        };
        if field.storage.is_packed() != signed {
            return Err(Fault::Refused);
        }
        self.typed(
            &[reference(true, HeapType::Concrete(ty))],
            &[field.storage.unpacked()],
        )
    }

    /// `struct.set`
    pub(crate) fn struct_set(&mut self, ty: u32, field: u32) -> Result<(), Fault>
        ensures plain { ResultsIn (plain_in self.old (struct_set (setting_of self.old).operands ty field)) result (open_state self.new) }
        ensures open { self.new.ended ≡ self.old.ended }
        ensures setting { setting_of self.new ≡ setting_of self.old }
    {
        let Some(field) = self.field(ty, field) else {
            return Err(Fault::Refused);
        };
        if !field.mutable {
            return Err(Fault::Refused);
        }
        self.typed(
            &[
                reference(true, HeapType::Concrete(ty)),
                field.storage.unpacked(),
            ],
            &[],
        )
    }

    /// `array.new`
    pub(crate) fn array_new(&mut self, ty: u32) -> Result<(), Fault>
        ensures plain { ResultsIn (plain_in self.old (array_new (setting_of self.old).operands ty)) result (open_state self.new) }
        ensures open { self.new.ended ≡ self.old.ended }
        ensures setting { setting_of self.new ≡ setting_of self.old }
    {
        let Some(element) = self.context.array_element(ty) else {
            return Err(Fault::Refused);
        };
        self.typed(
            &[element.storage.unpacked(), ValType::I32],
            &[reference(false, HeapType::Concrete(ty))],
        )
    }

    /// `array.new_default`
    pub(crate) fn array_new_default(&mut self, ty: u32) -> Result<(), Fault>
        ensures plain { ResultsIn (plain_in self.old (array_new_default (setting_of self.old).operands ty)) result (open_state self.new) }
        ensures open { self.new.ended ≡ self.old.ended }
        ensures setting { setting_of self.new ≡ setting_of self.old }
    {
        let Some(element) = self.context.array_element(ty) else {
            return Err(Fault::Refused);
        };
        if !has_default(element.storage.unpacked()) {
            return Err(Fault::Refused);
        }
        self.typed(&[ValType::I32], &[reference(false, HeapType::Concrete(ty))])
    }

    /// `array.new_data`
    pub(crate) fn array_new_data(&mut self, ty: u32, segment: u32) -> Result<(), Fault>
        ensures plain { ResultsIn (plain_in self.old (array_new_from from_data (setting_of self.old).operands ty segment)) result (open_state self.new) }
        ensures open { self.new.ended ≡ self.old.ended }
        ensures setting { setting_of self.new ≡ setting_of self.old }
    {
        let Some(element) = self.context.array_element(ty) else {
            return Err(Fault::Refused);
        };
        if !self.is_from_data(element, segment) {
            return Err(Fault::Refused);
        }
        self.typed(
            &[ValType::I32, ValType::I32],
            &[reference(false, HeapType::Concrete(ty))],
        )
    }

    /// `array.new_elem`
    pub(crate) fn array_new_elem(&mut self, ty: u32, segment: u32) -> Result<(), Fault>
        ensures plain { ResultsIn (plain_in self.old (array_new_from from_elements (setting_of self.old).operands ty segment)) result (open_state self.new) }
        ensures open { self.new.ended ≡ self.old.ended }
        ensures setting { setting_of self.new ≡ setting_of self.old }
    {
        let Some(element) = self.context.array_element(ty) else {
            return Err(Fault::Refused);
        };
        if !self.is_from_elements(element, segment) {
            return Err(Fault::Refused);
        }
        self.typed(
            &[ValType::I32, ValType::I32],
            &[reference(false, HeapType::Concrete(ty))],
        )
    }

    /// `array.get`, `array.get_s` and `array.get_u`
    pub(crate) fn array_get(&mut self, signed: bool, ty: u32) -> Result<(), Fault>
        ensures plain { ResultsIn (plain_in self.old (array_get signed (setting_of self.old).operands ty)) result (open_state self.new) }
        ensures open { self.new.ended ≡ self.old.ended }
        ensures setting { setting_of self.new ≡ setting_of self.old }
    {
        let Some(element) = self.context.array_element(ty) else {
            return Err(Fault::Refused);
        };
        if element.storage.is_packed() != signed {
            return Err(Fault::Refused);
        }
        self.typed(
            &[reference(true, HeapType::Concrete(ty)), ValType::I32],
            &[element.storage.unpacked()],
        )
    }

    /// `array.set`
    pub(crate) fn array_set(&mut self, ty: u32) -> Result<(), Fault>
        ensures plain { ResultsIn (plain_in self.old (array_set (setting_of self.old).operands ty)) result (open_state self.new) }
        ensures open { self.new.ended ≡ self.old.ended }
        ensures setting { setting_of self.new ≡ setting_of self.old }
    {
        let Some(element) = self.context.array_element(ty) else {
            return Err(Fault::Refused);
        };
        if !element.mutable {
            return Err(Fault::Refused);
        }
        self.typed(
            &[
                reference(true, HeapType::Concrete(ty)),
                ValType::I32,
                element.storage.unpacked(),
            ],
            &[],
        )
    }

    /// `array.fill`
    pub(crate) fn array_fill(&mut self, ty: u32) -> Result<(), Fault>
        ensures plain { ResultsIn (plain_in self.old (array_fill (setting_of self.old).operands ty)) result (open_state self.new) }
        ensures open { self.new.ended ≡ self.old.ended }
        ensures setting { setting_of self.new ≡ setting_of self.old }
    {
        let Some(element) = self.context.array_element(ty) else {
            return Err(Fault::Refused);
        };
        if !element.mutable {
            return Err(Fault::Refused);
        }
        self.typed(
            &[
                reference(true, HeapType::Concrete(ty)),
                ValType::I32,
                element.storage.unpacked(),
                ValType::I32,
            ],
            &[],
        )
    }

    /// `array.copy`
    pub(crate) fn array_copy(&mut self, target: u32, source: u32) -> Result<(), Fault>
        ensures plain { ResultsIn (plain_in self.old (array_copy (setting_of self.old).operands target source)) result (open_state self.new) }
        ensures open { self.new.ended ≡ self.old.ended }
        ensures setting { setting_of self.new ≡ setting_of self.old }
    {
        let Some(to) = self.context.array_element(target) else {
            return Err(Fault::Refused);
        };
        let Some(from) = self.context.array_element(source) else {
            return Err(Fault::Refused);
        };
        if !to.mutable || !self.context.matches_storage(from.storage, to.storage) {
            return Err(Fault::Refused);
        }
        self.typed(
            &[
                reference(true, HeapType::Concrete(target)),
                ValType::I32,
                reference(true, HeapType::Concrete(source)),
                ValType::I32,
                ValType::I32,
            ],
            &[],
        )
    }

    /// `array.init_data`
    pub(crate) fn array_init_data(&mut self, ty: u32, segment: u32) -> Result<(), Fault>
        ensures plain { ResultsIn (plain_in self.old (array_init_from from_data (setting_of self.old).operands ty segment)) result (open_state self.new) }
        ensures open { self.new.ended ≡ self.old.ended }
        ensures setting { setting_of self.new ≡ setting_of self.old }
    {
        let Some(element) = self.context.array_element(ty) else {
            return Err(Fault::Refused);
        };
        if !element.mutable || !self.is_from_data(element, segment) {
            return Err(Fault::Refused);
        }
        self.typed(
            &[
                reference(true, HeapType::Concrete(ty)),
                ValType::I32,
                ValType::I32,
                ValType::I32,
            ],
            &[],
        )
    }

    /// `array.init_elem`
    pub(crate) fn array_init_elem(&mut self, ty: u32, segment: u32) -> Result<(), Fault>
        ensures plain { ResultsIn (plain_in self.old (array_init_from from_elements (setting_of self.old).operands ty segment)) result (open_state self.new) }
        ensures open { self.new.ended ≡ self.old.ended }
        ensures setting { setting_of self.new ≡ setting_of self.old }
    {
        let Some(element) = self.context.array_element(ty) else {
            return Err(Fault::Refused);
        };
        if !element.mutable || !self.is_from_elements(element, segment) {
            return Err(Fault::Refused);
        }
        self.typed(
            &[
                reference(true, HeapType::Concrete(ty)),
                ValType::I32,
                ValType::I32,
                ValType::I32,
            ],
            &[],
        )
    }
}
