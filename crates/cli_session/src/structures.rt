// The structures that a client sends.
ghost use Rattle.std.specs.Prelude.{◌≡◌, ◌∷◌, [], codes, IfOk, true};
ghost use Rattle.std.specs.Option.{option_copied};
ghost use Rattle.pvd_type.specs.Numbers.{path_of, path_after};
ghost use Rattle.pvd_type.specs.Tree.{node, leaf, plain, struct, field, no_fields};
ghost use Rattle.pvd_type.specs.View.{shape_view, member_view, members_view};
ghost use Rattle.pvd_type.specs.declared.shape.Scalar.TheVariants as scalars;
ghost use Rattle.pvd_value.specs.Data.{single, text, members, more, end};
ghost use Rattle.pvd_value.specs.Fits.{fits_of};
ghost use Rattle.pvd_value.specs.View.{view, row_view};
ghost use Rattle.cli_session.specs.Seen.{texts_seen, paths_seen, shape_seen, pair_view};
ghost use Rattle.cli_session.specs.Structures as spec;

use itoa::Buffer;
use pvd_type::{Member, Name, NoMemory, Node, PvType, Scalar, Shape, is_among};
use pvd_value::{PvValue, blank_shape};
use std::alloc::Global;

/// A text under a name.
type Text<'a> = (&'a str, &'a str);

/// A path of fields has at most so many names.
const DEEPEST: u32 = 30;

/// A member.
fn member(alloc: Global, name: &str, shape: Shape) -> Result<Member, NoMemory>
    ensures { IfOk result (λ m. member_view m ≡ (name.now, shape_view shape)) }
{
    Ok(Member {
        name: Name::of(alloc, name)?,
        shape,
    })
}

/// A structure with this id.
fn structure_of(alloc: Global, id: &str, members: Vec<Member>) -> Result<Shape, NoMemory>
    ensures { IfOk result (λ s. shape_view s ≡ node struct id.now (members_view members.items)) }
{
    let id = Name::of(alloc, id)?;
    Ok(Shape::Struct(Node::of(alloc, id, members)?))
}

/// The members of texts.
fn text_members(alloc: Global, texts: &[Text<'_>]) -> Result<Vec<Member>, NoMemory>
    ensures { IfOk result (λ ms. members_view ms.items ≡ spec.text_fields (texts_seen texts.now)) }
{
    let mut members = Vec::with_capacity(alloc, texts.len())?;
    for text in texts {
        members.push(member(alloc, text.0, Shape::Plain(Scalar::Text))?)?;
    }
    Ok(members)
}

/// The values of texts.
fn text_values(alloc: Global, texts: &[Text<'_>]) -> Result<Vec<PvValue>, NoMemory>
    ensures { IfOk result (λ vs. row_view vs.items ≡ spec.text_row (texts_seen texts.now)) }
{
    let mut values = Vec::with_capacity(alloc, texts.len())?;
    for text in texts {
        values.push(PvValue::Text(Name::of(alloc, text.1)?))?;
    }
    Ok(values)
}

/// A structure of texts.
fn texts_of(alloc: Global, texts: &[Text<'_>]) -> Result<(Shape, PvValue), NoMemory>
    ensures { IfOk result (λ s. shape_seen s ≡ (spec.texts_type (texts_seen texts.now), spec.texts_value (texts_seen texts.now))) }
{
    let shape = structure_of(alloc, "", text_members(alloc, texts)?)?;
    Ok((shape, PvValue::Struct(text_values(alloc, texts)?)))
}

/// The type of a shape, with its value.
fn typed(alloc: Global, shape: Shape, value: PvValue) -> Result<(PvType, PvValue), NoMemory>
    ensures { IfOk result (λ r. pair_view r ≡ (shape_view shape, view value)) }
{
    match PvType::check(alloc, shape) {
        Ok(ty) => Ok((ty, value)),
        Err(_) => Err(NoMemory),
    }
}

/// The first name of a path, and the path that follows its dot.
fn split_path(path: &str) -> (&str, Option<&str>)
    ensures { path_of path.now ≡ result.0.now ∷ path_after (option_copied result.1) }
{
    match path.split_once('.') {
        Some((name, rest)) => (name, Some(rest)),
        None => (path, None),
    }
}

/// What follows this name in the paths that begin with it; nothing where one of them ends there.
fn below<'a>(alloc: Global, name: &str, paths: &[&'a str]) -> Result<Vec<&'a str>, NoMemory>
    ensures { IfOk result (λ ps. paths_seen ps.items ≡ spec.below name.now (paths_seen paths.now)) }
{
    let mut found = Vec::with_capacity(alloc, paths.len())?;
    for path in paths {
        let (first, rest) = split_path(path);
        if first != name {
            continue;
        }
        let Some(rest) = rest else {
            return Ok(Vec::new(alloc));
        };
        found.push(rest)?;
    }
    Ok(found)
}

/// The member of this name, for the paths that begin with it.
#[cycle(chosen)]
fn chosen_member(alloc: Global, name: Name, paths: &[&str], depth: u32) -> Result<Member, NoMemory>
    ensures member { IfOk result (λ m. member_view m ≡ (name, spec.structure (spec.chosen depth (spec.below name (paths_seen paths.now))))) }
    ensures name { IfOk result (λ m. m.name ≡ name) }
{
    let found = below(alloc, name.as_str(), paths)?;
    let shape = structure_of(alloc, "", chosen(alloc, &found, depth)?)?;
    Ok(Member { name, shape })
}

/// An empty structure for each path, in one for each name that leads there. A path has at most `depth` names.
#[cycle(chosen)]
#[tactic(auto, unfolding(crate::specs::Structures::chosen))]
fn chosen(alloc: Global, paths: &[&str], depth: u32) -> Result<Vec<Member>, NoMemory>
    ensures { IfOk result (λ ms. members_view ms.items ≡ spec.chosen depth (paths_seen paths.now)) }
{
    let mut members = Vec::new(alloc);
    if depth == 0 {
        return Ok(members);
    }
    for path in paths {
        let name = Name::of(alloc, split_path(path).0)?;
        if is_among(&name, &members) {
            continue;
        }
        members.push(chosen_member(alloc, name, paths, depth - 1)?)?;
    }
    Ok(members)
}

/// The members of the structures for these fields.
fn fields_of(alloc: Global, fields: &[Name]) -> Result<Vec<Member>, NoMemory>
    ensures { IfOk result (λ ms. members_view ms.items ≡ spec.selected fields.now) }
{
    let mut paths = Vec::with_capacity(alloc, fields.len())?;
    for field in fields {
        paths.push(field.as_str())?;
    }
    chosen(alloc, &paths, DEEPEST)
}

/// A structure of one member.
fn around(alloc: Global, name: &str, shape: Shape) -> Result<Shape, NoMemory>
    ensures { IfOk result (λ s. shape_view s ≡ spec.structure (field name.now (shape_view shape) no_fields)) }
{
    let member = member(alloc, name, shape)?;
    structure_of(alloc, "", vec![in alloc; member]?)
}

/// A structure of two members.
fn side_by_side(alloc: Global, first: Member, second: Member) -> Result<Shape, NoMemory>
    ensures { IfOk result (λ s. shape_view s ≡ spec.structure (field (member_view first).0 (member_view first).1 (field (member_view second).0 (member_view second).1 no_fields))) }
{
    structure_of(alloc, "", vec![in alloc; first, second]?)
}

/// A request: the structure of this name with these members and, where there are options, `record`, which has them.
fn request(
    alloc: Global,
    root: &str,
    fields: Vec<Member>,
    options: &[Text<'_>],
) -> Result<(PvType, PvValue), NoMemory>
    ensures { IfOk result (λ r. pair_view r ≡ spec.request root.now (members_view fields.items) (texts_seen options.now)) }
{
    let fields = structure_of(alloc, "", fields)?;
    let blank = blank_shape(alloc, &fields)?;
    if options.is_empty() {
        return without_options(alloc, root, fields, blank);
    }
    with_options(alloc, root, fields, blank, options)
}

/// A request of a structure of fields, with its value.
fn without_options(
    alloc: Global,
    root: &str,
    fields: Shape,
    blank: PvValue,
) -> Result<(PvType, PvValue), NoMemory>
    ensures { IfOk result (λ r. pair_view r ≡ (spec.structure (field root.now (shape_view fields) no_fields), members (more (view blank) end))) }
{
    let value = PvValue::Struct(vec![in alloc; blank]?);
    typed(alloc, around(alloc, root, fields)?, value)
}

/// A request of a structure of fields, with its value, and the structure `record`.
fn with_options(
    alloc: Global,
    root: &str,
    fields: Shape,
    blank: PvValue,
    options: &[Text<'_>],
) -> Result<(PvType, PvValue), NoMemory>
    ensures { IfOk result (λ r. pair_view r ≡ (spec.structure (field root.now (shape_view fields) (spec.record_fields (texts_seen options.now))), members (more (view blank) (spec.record_row (texts_seen options.now))))) }
{
    let (shape, texts) = texts_of(alloc, options)?;
    let value = record_value(alloc, blank, texts)?;
    typed(alloc, record_shape(alloc, root, fields, shape)?, value)
}

/// The fields under their name, and beside them `record` around the options.
fn record_shape(alloc: Global, root: &str, fields: Shape, options: Shape) -> Result<Shape, NoMemory>
    ensures { IfOk result (λ s. shape_view s ≡ spec.structure (field root.now (shape_view fields) (field (codes "record") (spec.structure (field (codes "_options") (shape_view options) no_fields)) no_fields))) }
{
    let record = member(alloc, "record", around(alloc, "_options", options)?)?;
    side_by_side(alloc, member(alloc, root, fields)?, record)
}

/// The value of the fields, and beside it that of `record`, where the options have this one.
fn record_value(alloc: Global, fields: PvValue, options: PvValue) -> Result<PvValue, NoMemory>
    ensures { IfOk result (λ v. view v ≡ members (more (view fields) (more (members (more (view options) end)) end))) }
{
    let options = PvValue::Struct(vec![in alloc; options]?);
    Ok(PvValue::Struct(vec![in alloc; fields, options]?))
}

/// The option of a request that is to be atomic, or isn't.
fn atomic_options(atomic: Option<bool>) -> &'static [Text<'static>]
    ensures { texts_seen result.now ≡ spec.atomic_options atomic }
{
    match atomic {
        None => &[],
        Some(true) => &[("atomic", "true")],
        Some(false) => &[("atomic", "false")],
    }
}

/// The request of a get, a put-get or a put, for these fields.
pub(crate) fn access_request(
    alloc: Global,
    root: &str,
    fields: &[Name],
    atomic: Option<bool>,
) -> Result<(PvType, PvValue), NoMemory>
    ensures is { IfOk result (λ r. pair_view r ≡ spec.request root.now (spec.selected fields.now) (spec.atomic_options atomic)) }
    ensures fits { IfOk result (λ r. fits_of 16 (view r.1) r.0 ≡ true) }
{
    let fields = fields_of(alloc, fields)?;
    request(alloc, root, fields, atomic_options(atomic))
}

/// The request of a monitor.
pub(crate) fn monitor_request(
    alloc: Global,
    fields: &[Name],
    queue: u32,
    window: Option<u32>,
) -> Result<(PvType, PvValue), NoMemory>
    ensures is { IfOk result (λ r. pair_view r ≡ spec.request (codes "field") (spec.selected fields.now) (spec.monitor_options queue window)) }
    ensures fits { IfOk result (λ r. fits_of 16 (view r.1) r.0 ≡ true) }
{
    let fields = fields_of(alloc, fields)?;
    let mut buffer = Buffer::new();
    let size = ("queueSize", buffer.format(queue));
    match window {
        None => request(alloc, "field", fields, &[size]),
        Some(_) => request(alloc, "field", fields, &[size, ("pipeline", "true")]),
    }
}

/// The user and the host, as the argument of a validation.
pub(crate) fn user_of(alloc: Global, user: &str, host: &str) -> Result<(PvType, PvValue), NoMemory>
    ensures is { IfOk result (λ r. pair_view r ≡ spec.user_of (user.now, host.now)) }
    ensures fits { IfOk result (λ r. fits_of 16 (view r.1) r.0 ≡ true) }
{
    let (shape, value) = texts_of(alloc, &[("user", user), ("host", host)])?;
    typed(alloc, shape, value)
}

/// The structure of an NTURI with this query.
fn uri_shape(alloc: Global, query: Shape) -> Result<Shape, NoMemory>
    ensures { IfOk result (λ s. shape_view s ≡ node struct (codes "epics:nt/NTURI:1.0") (field (codes "scheme") (leaf (plain scalars.Text)) (field (codes "path") (leaf (plain scalars.Text)) (field (codes "query") (shape_view query) no_fields)))) }
{
    let mut members = Vec::with_capacity(alloc, 3)?;
    members.push(member(alloc, "scheme", Shape::Plain(Scalar::Text))?)?;
    members.push(member(alloc, "path", Shape::Plain(Scalar::Text))?)?;
    members.push(member(alloc, "query", query)?)?;
    structure_of(alloc, "epics:nt/NTURI:1.0", members)
}

/// The value of an NTURI with this path and this query.
fn uri_value(alloc: Global, path: &str, query: PvValue) -> Result<PvValue, NoMemory>
    ensures { IfOk result (λ v. view v ≡ members (more (single (text (codes "pva"))) (more (single (text path.now)) (more (view query) end)))) }
{
    let mut values = Vec::with_capacity(alloc, 3)?;
    values.push(PvValue::Text(Name::of(alloc, "pva")?))?;
    values.push(PvValue::Text(Name::of(alloc, path)?))?;
    values.push(query)?;
    Ok(PvValue::Struct(values))
}

/// An NTURI that calls the operation of this name (EPICS Normative Types 1.0, "NTURI").
pub(crate) fn uri(alloc: Global, path: &str, operation: &str) -> Result<(PvType, PvValue), NoMemory>
    ensures is { IfOk result (λ r. pair_view r ≡ spec.uri path.now operation.now) }
    ensures fits { IfOk result (λ r. fits_of 16 (view r.1) r.0 ≡ true) }
{
    let (query, texts) = texts_of(alloc, &[("op", operation)])?;
    let value = uri_value(alloc, path, texts)?;
    typed(alloc, uri_shape(alloc, query)?, value)
}
