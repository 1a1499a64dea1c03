//! Where spots are in a repaired program.
use super::{path_of, path_text, spot_of};
use psg_asking::spot_in;
use psg_keymap::Spot;
use psg_places::Place;
use std::alloc::{AllocError, Global};
use std::process::Abort;
use std::test::Fail;

/// Returns the element and the node.
fn worked_places(alloc: Global) -> Result<Vec<Place>, AllocError> {
    let mut places = Vec::new(alloc);
    places.push(Place::Element(path_of(alloc, "/1/0")?))?;
    places.push(Place::Node(path_of(alloc, "/1/2")?))?;
    Ok(places)
}

/// Writes the spot as `/1 2`, one without a place as `/1`, and `-` where there is none.
fn spot_text(alloc: Global, spot: Option<Spot>) -> Result<String, AllocError> {
    let Some(spot) = spot else {
        return String::from_str(alloc, "-");
    };
    let mut text = path_text(alloc, &spot.target)?;
    if let Some(place) = spot.place {
        write!(&mut text, " {place}")?;
    }
    Ok(text)
}

/// A path, a place of the list there, and where they are when the element `/1/0` is left out and the node `/1/2` is a
/// placeholder.
const SPOTS: &[(&str, Option<u32>, &str)] = &[
    ("/1", Some(4), "/1 3"),
    ("/1", Some(0), "/1 0"),
    ("/1/3", None, "/1/2"),
    ("/1/2", None, "/1/1"),
    ("/1/0", None, "-"),
    ("/1/0/0", None, "-"),
    ("/1/2/0", None, "-"),
    ("/0", Some(2), "/0 2"),
];

#[test]
fn spots_are_found_again(rt: HostRuntime) -> Result<(), Fail> {
    let alloc = rt.alloc();
    let places = worked_places(alloc)?;
    for (path, place, wanted) in SPOTS {
        let spot = spot_of(alloc, path, *place)?;
        let found = spot_in(alloc, places.as_slice(), &spot)?;
        let text = spot_text(alloc, found)?;
        assert_eq!(&rt; text.as_str(), *wanted);
    }
    Ok(())
}
