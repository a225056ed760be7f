ghost use Rattle.std.specs.Prelude.{◌≡◌, ◌<◌, ℕ, true, length, codes, option_map, IfOk, IfSome};
ghost use Rattle.std.specs.FinSet as set;
ghost use Rattle.pvd_type.specs.View.{shape_view};
ghost use Rattle.pvd_type.specs.Numbers.{is_leaf, leaves, numbered};
ghost use Rattle.pvd_value.specs.View.{view};
ghost use Rattle.pvd_value.specs.Fits.{fits_of};
ghost use Rattle.cli_text.specs.Faults.{Makes};
ghost use Rattle.cli_text.specs.Put as spec;

use crate::fault::{Cause, PutText};
use crate::placing::{Given, put_below};
use pvd_type::{BitSet, Name, PvType, Scalar, Shape};
use pvd_value::{Items, PvValue, fits, leaf};
use std::alloc::Global;

/// The leaf that a word gives, by its number, and the text that it gives.
#[derive(Clone, Copy)]
struct Target<'a> {
    number: u32,
    text: &'a str,
}

/// Where the words of a put go.
#[derive(Clone, Copy)]
pub enum Way {
    /// Each word `PATH=TEXT` to the leaf with its path.
    Paths,
    /// All words to the leaf with this number.
    Leaf(u32),
    /// A word to the index with this number, as one of an enum's choices.
    Choice(u32),
}

/// The leaves that words gave so far, and the value with them.
#[derive(Drop)]
struct Put {
    mask: BitSet,
    value: PvValue,
}

/// Whether a node of this shape is a leaf.
fn is_leaf_shape(shape: &Shape) -> bool
    ensures { result ≡ is_leaf (shape_view shape.now) }
{
    match shape {
        Shape::Struct(_) => false,
        _ => true,
    }
}

/// The number of the leaf with this path.
fn leaf_number(ty: &PvType, path: &str) -> Option<u32>
    ensures number { result ≡ spec.leaf_number ty.now path.now }
    ensures within { IfSome result (λ n. n < length (numbered ty.now)) }
{
    let number = ty.number_of(path)?;
    let shape = ty.shape_at(number)?;
    if is_leaf_shape(shape) {
        return Some(number);
    }
    None
}

/// What stands before and behind the first `=`.
fn split_word(word: &str) -> Option<(&str, &str)>
    ensures { option_map (λ p. (p.0.now, p.1.now)) result ≡ spec.split_word word.now }
{
    word.split_once('=')
}

/// The leaf that a word `PATH=TEXT` names, and its text.
fn by_path<'a>(ty: &PvType, word: &'a str) -> Option<Target<'a>>
    ensures path { option_map (λ p. (p.number, p.text.now)) result ≡ spec.by_path ty.now word.now }
    ensures within { IfSome result (λ p. p.number < length (numbered ty.now)) }
{
    let (path, text) = split_word(word)?;
    let number = leaf_number(ty, path)?;
    Some(Target { number, text })
}

/// The type of the node with this path.
fn shape_with<'a>(ty: &'a PvType, path: &str) -> Option<&'a Shape>
    ensures { option_map (λ s. shape_view s.now) result ≡ spec.type_at ty.now path.now }
{
    ty.shape_at(ty.number_of(path)?)
}

/// Whether this is the scalar of an index.
fn is_int(scalar: Scalar) -> bool
    ensures { result ≡ spec.is_int scalar }
{
    matches!(scalar, Scalar::I32)
}

/// Whether this is the scalar of a choice.
fn is_string(scalar: Scalar) -> bool
    ensures { result ≡ spec.is_string scalar }
{
    matches!(scalar, Scalar::Text)
}

/// Whether this is the type of an index.
fn is_index(shape: &Shape) -> bool
    ensures { result ≡ spec.is_index (shape_view shape.now) }
{
    match shape {
        Shape::Plain(scalar) => is_int(*scalar),
        _ => false,
    }
}

/// Whether this is the type of the texts of choices.
fn is_choices(shape: &Shape) -> bool
    ensures { result ≡ spec.is_choices (shape_view shape.now) }
{
    match shape {
        Shape::List(scalar, _) => is_string(*scalar),
        _ => false,
    }
}

/// Whether `value` is an enum: an index and the texts of the choices.
fn is_enum(ty: &PvType) -> bool
    ensures { result ≡ spec.is_enum ty.now }
{
    let Some(index) = shape_with(ty, "value.index") else {
        return false;
    };
    let Some(choices) = shape_with(ty, "value.choices") else {
        return false;
    };
    is_index(index) && is_choices(choices)
}

/// Where the words go that name no leaf.
fn value_way(ty: &PvType) -> Option<Way>
    ensures within { IfSome result (λ w. spec.way_number w < length (numbered ty.now)) }
    ensures way { result ≡ spec.value_way ty.now (spec.leaf_number ty.now (codes "value")) }
{
    if let Some(number) = leaf_number(ty, "value") {
        return Some(Way::Leaf(number));
    }
    if !is_enum(ty) {
        return None;
    }
    leaf_number(ty, "value.index").map(Way::Choice)
}

/// Where the words go, of which this is the first.
fn way_of(ty: &PvType, first: &str) -> Option<Way>
    ensures within { IfSome result (λ w. spec.way_number w < length (numbered ty.now)) }
    ensures way { result ≡ spec.way_of ty.now first.now }
{
    if by_path(ty, first).is_some() {
        return Some(Way::Paths);
    }
    value_way(ty)
}

/// The texts in a list of texts.
fn texts_in(value: &PvValue) -> &[Name]
    ensures { result.now ≡ spec.texts_in (view value.now) }
{
    match value {
        PvValue::List(Items::Text(texts)) => texts,
        _ => &[],
    }
}

/// The texts of an enum's choices.
fn choices_of<'a>(ty: &PvType, value: &'a PvValue) -> &'a [Name]
    requires { fits_of 16 (view value.now) ty.now ≡ true }
    ensures { result.now ≡ spec.choices_of ty.now (view value.now) }
{
    let Some(number) = ty.number_of("value.choices") else {
        return &[];
    };
    match leaf(value, ty, number) {
        Some(choices) => texts_in(choices),
        None => &[],
    }
}

/// The leaf that a word gives, and the text that it gives.
fn target_of<'a>(way: Way, ty: &PvType, word: &'a str) -> Option<Target<'a>>
    requires { spec.way_number way < length (numbered ty.now) }
    ensures within { IfSome result (λ p. p.number < length (numbered ty.now)) }
    ensures target { option_map (λ p. (p.number, p.text.now)) result ≡ spec.target way ty.now word.now }
{
    match way {
        Way::Paths => by_path(ty, word),
        Way::Leaf(number) => Some(Target { number, text: word }),
        Way::Choice(number) => Some(Target { number, text: word }),
    }
}

/// Gives one word more.
fn put_word(
    alloc: Global,
    way: Way,
    choices: &[Name],
    ty: &PvType,
    put: &mut Put,
    word: &str,
) -> Result<(), Cause>
    requires { spec.way_number way < length (numbered ty.now) }
    ensures { Makes result (put.new.mask, view put.new.value) (spec.put_word way choices.now ty.now (put.old.mask, view put.old.value) word.now) }
{
    let Some(target) = target_of(way, ty, word) else {
        return Err(Cause::NoField);
    };
    let given = Given {
        way,
        choices,
        first: !put.mask.contains(target.number),
        text: target.text,
    };
    let (shape, sizes) = (ty.shape(), ty.sizes());
    if let Err(cause) = put_below(&mut put.value, shape, sizes, target.number, given, alloc) {
        return Err(cause);
    }
    put.mask.insert(target.number)?;
    Ok(())
}

/// Gives words in order.
fn put_each(
    alloc: Global,
    way: Way,
    choices: &[Name],
    ty: &PvType,
    put: &mut Put,
    words: &[Name],
) -> Result<(), PutText>
    requires { spec.way_number way < length (numbered ty.now) }
    ensures { spec.PutsEach result (put.new.mask, view put.new.value) (spec.put_from way choices.now ty.now 0 (put.old.mask, view put.old.value) words.now) }
{
    for i in 0..words.len() {
        if let Err(cause) = put_word(alloc, way, choices, ty, put, words[i].as_str()) {
            return Err(cause.at(i));
        }
    }
    Ok(())
}

/// What words give that go there.
fn put_by(
    alloc: Global,
    ty: &PvType,
    current: &PvValue,
    words: &[Name],
    way: Way,
) -> Result<Put, PutText>
    requires fits { fits_of 16 (view current.now) ty.now ≡ true }
    requires some { 0 < length words.now }
    requires way { spec.way_number way < length (numbered ty.now) }
    ensures put { spec.Puts (λ p. (p.mask, view p.value)) result (spec.put_by ty.now (view current.now) words.now (Some way)) }
    ensures fits { IfOk result (λ p. fits_of 16 (view p.value) ty.now ≡ true) }
{
    let choices = choices_of(ty, current);
    let value = current.clone_in(alloc)?;
    let mask = BitSet::new(alloc);
    let mut put = Put { mask, value };
    put_each(alloc, way, choices, ty, &mut put, words)?;
    if !fits(ty, &put.value) {
        return Err(PutText::OutOfRange(words.len() - 1));
    }
    Ok(put)
}

/// The value that words give over a present one, and the leaves that they give. A word `PATH=TEXT` gives the leaf with this
/// path, where the first word names one, and then every word has to; else all words give `value`, or one word gives `value.index`
/// of an enum, as one of `value.choices` or as a number. A list of scalars takes a word for each element, and another leaf one
/// word. Unions, variants, lists of these, lists of structures, `float` and `double` can't be given.
///
/// The value fits the type, and there is at least one word. The first word that is refused is answered with its cause.
pub fn put_words(
    alloc: Global,
    ty: &PvType,
    current: &PvValue,
    words: &[Name],
) -> Result<(BitSet, PvValue), PutText>
    requires fits { fits_of 16 (view current.now) ty.now ≡ true }
    requires some { 0 < length words.now }
    ensures put { spec.Puts (λ p. (p.0, view p.1)) result (spec.put_of ty.now (view current.now) words.now) }
    ensures fits { IfOk result (λ p. fits_of 16 (view p.1) ty.now ≡ true) }
    ensures leaves { IfOk result (λ p. (k : ℕ) → set.contains p.0 k ≡ true → set.contains (leaves ty.now) k ≡ true) }
{
    let Some(way) = way_of(ty, words[0].as_str()) else {
        return Err(PutText::NoField(0));
    };
    let Put { mask, value } = put_by(alloc, ty, current, words, way)?;
    Ok((mask, value))
}
