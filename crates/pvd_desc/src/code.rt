ghost use Rattle.std.specs.Prelude.{◌≡◌, ◌<◌};
ghost use Rattle.pvd_type.specs.View.{shape_view};
ghost use Rattle.pvd_desc.specs.Code.{scalar_code, scalar_of, of_form, code_of, takes, is_element, list_tree};

use pvd_type::{Scalar, Shape};

/// What a code byte stands for (pvAccess Protocol Specification, "FieldDesc encoding").
#[derive(Clone, Copy)]
pub enum Code {
    /// A scalar.
    Plain(Scalar),
    /// A list of scalars of any length.
    List(Scalar),
    /// A list of at most so many scalars as the size says that follows.
    Bounded(Scalar),
    /// A list of exactly so many scalars as the size says that follows.
    Fixed(Scalar),
    /// A text of at most so many bytes as the size says that follows.
    BoundText,
    Variant,
    VariantList,
    Struct,
    Union,
    StructList,
    UnionList,
    /// A type that was defined before, by its id.
    Cached,
    /// No type.
    Unknown,
}

/// What stands in a list of structures or unions.
#[derive(Clone, Copy)]
pub enum Element {
    Struct,
    Union,
}

/// The code of a scalar. Its lists have the same code with 8, 16 or 24 added.
pub fn scalar_code(scalar: Scalar) -> u8
    ensures code { result ≡ scalar_code scalar }
    ensures low { result < 0x68 }
{
    match scalar {
        Scalar::Bool => 0x00,
        Scalar::I8 => 0x20,
        Scalar::I16 => 0x21,
        Scalar::I32 => 0x22,
        Scalar::I64 => 0x23,
        Scalar::U8 => 0x24,
        Scalar::U16 => 0x25,
        Scalar::U32 => 0x26,
        Scalar::U64 => 0x27,
        Scalar::F32 => 0x42,
        Scalar::F64 => 0x43,
        Scalar::Text => 0x60,
    }
}

/// The scalar of a code without its list bits.
#[tactic(auto, unfolding(crate::specs::Code::scalar_of))]
fn scalar_of(code: u8) -> Option<Scalar>
    ensures { result ≡ scalar_of code }
{
    match code {
        0x00 => Some(Scalar::Bool),
        0x20 => Some(Scalar::I8),
        0x21 => Some(Scalar::I16),
        0x22 => Some(Scalar::I32),
        0x23 => Some(Scalar::I64),
        0x24 => Some(Scalar::U8),
        0x25 => Some(Scalar::U16),
        0x26 => Some(Scalar::U32),
        0x27 => Some(Scalar::U64),
        0x42 => Some(Scalar::F32),
        0x43 => Some(Scalar::F64),
        0x60 => Some(Scalar::Text),
        _ => None,
    }
}

/// A scalar or one of its lists.
fn of_form(scalar: Option<Scalar>, form: u8) -> Code
    ensures { result ≡ of_form scalar form }
{
    let Some(scalar) = scalar else {
        return Code::Unknown;
    };
    match form {
        0 => Code::Plain(scalar),
        1 => Code::List(scalar),
        2 => Code::Bounded(scalar),
        _ => Code::Fixed(scalar),
    }
}

/// What a code byte stands for.
#[tactic(auto, unfolding(crate::specs::Code::code_of))]
pub fn code_of(byte: u8) -> Code
    ensures { result ≡ code_of byte }
{
    match byte {
        0x80 => Code::Struct,
        0x81 => Code::Union,
        0x82 => Code::Variant,
        0x83 => Code::BoundText,
        0x88 => Code::StructList,
        0x89 => Code::UnionList,
        0x8A => Code::VariantList,
        0xFE => Code::Cached,
        _ => of_form(scalar_of(byte / 32 * 32 + byte % 8), byte / 8 % 4),
    }
}

/// Whether a list of such nodes takes this code for its element.
pub fn takes(element: Element, code: Code) -> bool
    ensures { result ≡ takes element code }
{
    match element {
        Element::Struct => match code {
            Code::Struct => true,
            _ => false,
        },
        Element::Union => match code {
            Code::Union => true,
            _ => false,
        },
    }
}

/// Whether a shape may be such an element.
pub fn is_element(element: Element, shape: &Shape) -> bool
    ensures { result ≡ is_element element (shape_view shape.now) }
{
    match shape {
        Shape::Struct(_) => match element {
            Element::Struct => true,
            Element::Union => false,
        },
        Shape::Union(_) => match element {
            Element::Struct => false,
            Element::Union => true,
        },
        Shape::Plain(_) => false,
        Shape::BoundText(_) => false,
        Shape::List(_, _) => false,
        Shape::StructList(_) => false,
        Shape::UnionList(_) => false,
        Shape::Variant => false,
        Shape::VariantList => false,
    }
}

/// The list of a node.
pub fn list_tree(shape: Shape) -> Shape
    ensures { shape_view result ≡ list_tree (shape_view shape) }
{
    match shape {
        Shape::Struct(node) => Shape::StructList(node),
        Shape::Union(node) => Shape::UnionList(node),
        Shape::Plain(scalar) => Shape::Plain(scalar),
        Shape::BoundText(bound) => Shape::BoundText(bound),
        Shape::List(scalar, extent) => Shape::List(scalar, extent),
        Shape::StructList(node) => Shape::StructList(node),
        Shape::UnionList(node) => Shape::UnionList(node),
        Shape::Variant => Shape::Variant,
        Shape::VariantList => Shape::VariantList,
    }
}
