// The ids of monitors, which are kept rising.
ghost use Rattle.std.specs.Prelude.{◌≡◌, ◌<◌, true, nat_lt, OnOk, vec_len, vec_capacity};
ghost use Rattle.std.specs.List.{prefix_len};
ghost use Rattle.srv_session.specs.Rising.{is_rising, is_at, with_id, without_id};

use pvd_type::NoMemory;

/// How many ids are below this one before the first that isn't.
fn place_of(ids: &[u32], id: u32) -> usize
    ensures { result ≡ prefix_len (λ x. nat_lt x id) ids.now }
{
    for i in 0..ids.len() {
        if ids[i] >= id {
            return i;
        }
    }
    ids.len()
}

/// Whether an id stands at this place.
fn is_at(ids: &[u32], place: usize, id: u32) -> bool
    ensures { result ≡ is_at id place ids.now }
{
    match ids.get(place) {
        Some(found) => *found == id,
        None => false,
    }
}

/// Takes the memory for one id more.
pub(crate) fn make_room(ids: &mut Vec<u32>) -> Result<(), NoMemory>
    ensures ids { ids.new.items ≡ ids.old.items }
    ensures room { OnOk result (vec_len ids.new < vec_capacity ids.new) }
{
    ids.reserve(1)?;
    Ok(())
}

/// Adds an id, for which there is room, if it isn't there. It takes no memory.
pub(crate) fn list(ids: &mut Vec<u32>, id: u32)
    requires { vec_len ids.old < vec_capacity ids.old }
    ensures { ids.new.items ≡ with_id id ids.old.items }
{
    let place = place_of(ids, id);
    if is_at(ids, place, id) {
        return;
    }
    match ids.insert(place, id) {
        Ok(()) => {}
        Err(_) => unreachable!(),
    }
}

/// Takes an id out, if it is there.
pub(crate) fn unlist(ids: &mut Vec<u32>, id: u32)
    requires { is_rising ids.old.items ≡ true }
    ensures { ids.new.items ≡ without_id id ids.old.items }
{
    let place = place_of(ids, id);
    if is_at(ids, place, id) {
        ids.remove(place);
    }
}
