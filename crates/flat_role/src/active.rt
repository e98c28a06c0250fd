//! The list of the places that can act.

ghost use Rattle.std.specs.Prelude.{◌≡◌, ◌<◌, ◌≤◌, ◌+◌, ◌++◌, ◌∷◌, drop, length, take};
ghost use Rattle.std.specs.Vec.{vec_capacity};

/// Puts these places in the place of one of the list. It takes no memory: there is room for them.
pub(crate) fn give_way(active: &mut Vec<usize>, at: usize, news: &[usize])
    requires inside { at < length active.old.items }
    requires room { length active.old.items + length news.now ≤ vec_capacity active.old + 1 }
    ensures given { active.new.items
        ≡ take at active.old.items ++ (news.now ++ drop (at + 1) active.old.items) }
    ensures capacity { vec_capacity active.new ≡ vec_capacity active.old }
{
    let [first, ..] = news else {
        let _gone = active.remove(at);
        return;
    };
    active[at] = *first;
    for i in 1..news.len() {
        insert(active, at + i, news[i]);
    }
}

/// Puts a place into the list, before the one that stands there.
fn insert(active: &mut Vec<usize>, at: usize, place: usize)
    requires inside { at ≤ length active.old.items }
    requires room { length active.old.items < vec_capacity active.old }
    ensures inserted { active.new.items
        ≡ take at active.old.items ++ (place ∷ drop at active.old.items) }
    ensures capacity { vec_capacity active.new ≡ vec_capacity active.old }
{
    match active.insert(at, place) {
        Ok(()) => {}
        Err(_) => unreachable!(),
    }
}
