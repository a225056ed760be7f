ghost use Rattle.std.specs.Prelude.{◌≡◌, ◌<◌, ◌==◌, [], ◌∷◌, length, IfSome};
ghost use Rattle.std.specs.List.{slice_split};
ghost use Rattle.std.specs.Option.{option_map_or};
ghost use Rattle.group_defs.specs.Names.{is_meta, has_bracket, has_empty_part, name_fits};

use crate::def::MemberKind;

/// What stands before the first of these bytes, and what follows it if there is one.
pub(crate) fn cut(text: &str, at: char) -> (&str, Option<&str>)
    requires { at < 128 }
    ensures split { slice_split (λ x. x == at) text.now
        ≡ result.0.now ∷ option_map_or (λ rest. slice_split (λ x. x == at) rest.now) result.1 [] }
    ensures shorter { IfSome result.1 (λ rest. length rest.now < length text.now) }
{
    match text.split_once(at) {
        Some((before, after)) => (before, Some(after)),
        None => (text, None),
    }
}

/// Whether a part of a dotted name is empty.
fn has_empty_part(name: &str) -> bool
    ensures { result ≡ has_empty_part name.now }
{
    let mut rest = Some(name);
    while let Some(text) = rest {
        let (part, after) = cut(text, '.');
        if part.is_empty() {
            return true;
        }
        rest = after;
    }
    false
}

/// Whether a name has a bracket.
fn has_bracket(name: &str) -> bool
    ensures { result ≡ has_bracket name.now }
{
    name.as_bytes()
        .iter()
        .any(|byte| *byte == b'[' || *byte == b']')
}

/// Whether a member is of the kind `meta`.
fn is_meta(kind: MemberKind) -> bool
    ensures { result ≡ is_meta kind }
{
    match kind {
        MemberKind::Meta => true,
        MemberKind::Whole
        | MemberKind::Plain
        | MemberKind::Any
        | MemberKind::Proc
        | MemberKind::Structure => false,
    }
}

/// Whether a member of this kind may have this name.
#[tactic(auto, unfolding(crate::specs::Names::name_fits))]
pub(crate) fn name_fits(kind: MemberKind, name: &str) -> bool
    ensures { result ≡ name_fits kind name.now }
{
    if name.is_empty() {
        return is_meta(kind);
    }
    if has_bracket(name) {
        return false;
    }
    !has_empty_part(name)
}
