// A search: how many are found, and the first.
ghost use Rattle.std.specs.Prelude.{◌<◌, true, IfSome};
ghost use Rattle.std.specs.Iterator.{IsFinite};

// What a search finds, where it finds one: the first, and how many there are in all.
#[derive(Drop)]
pub struct Found<T> {
    pub first: T,
    pub count: u64,
    pub ghost some: { 0 < count },
}

// The first of the places that is such, and how many are.
pub(crate) fn search<T: Copy + Drop, I: Iterator<Item = T>, F: Fn(T) -> bool>(
    places: I,
    is_such: F,
) -> Option<Found<T>>
    requires can { I.can_next places }
    requires finite { IsFinite (I.remaining places) }
    requires callable { F.IsAlwaysCallable is_such }
    ensures { IfSome result (λ f. F.post is_such f.first true) }
{
    let mut found: Option<Found<T>> = None;
    for place in places {
        if is_such(place) {
            found = match found {
                None => Some(Found {
                    first: place,
                    count: 1,
                }),
                Some(f) => Some(Found {
                    first: f.first,
                    count: f.count.saturating_add(1),
                }),
            };
        }
    }
    found
}
