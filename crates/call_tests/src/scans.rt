// Scans over bytes, which look at 32 of them in one step: at each length from 0 to 100, with the byte at each place.
use byte_scan::{count_of, first_of};
use std::alloc::Global;
use tree_model::Mem;

/// So many dots, with another byte at one place, or at all places from there on.
fn dots_with(
    alloc: Global,
    length: usize,
    place: usize,
    byte: u8,
    on: bool,
) -> Result<Vec<u8>, Mem> {
    let mut bytes = Vec::new(alloc);
    for here in 0..length {
        let other = here == place || (on && here > place);
        bytes.push(if other { byte } else { b'.' })?;
    }
    Ok(bytes)
}

#[test]
fn a_byte_is_found_at_each_place(rt: HostRuntime) -> Result<(), Mem> {
    let alloc = rt.alloc();
    for length in 0..101 {
        // at the last of these places there is none
        for place in 0..length + 1 {
            let bytes = dots_with(alloc, length, place, b'=', false)?;
            let wanted = if place < length { Some(place) } else { None };
            assert_eq!(rt; first_of(bytes.as_slice(), b"="), wanted);
            assert_eq!(rt; first_of(bytes.as_slice(), b"\"=\n"), wanted);
            assert_eq!(rt; first_of(bytes.as_slice(), b"\n"), None);
            assert_eq!(rt; first_of(bytes.as_slice(), b""), None);
        }
    }
    Ok(())
}

#[test]
fn the_first_of_several_is_found(rt: HostRuntime) -> Result<(), Mem> {
    let alloc = rt.alloc();
    for length in 0..101 {
        for place in 0..length {
            let bytes = dots_with(alloc, length, place, b'\n', true)?;
            assert_eq!(rt; first_of(bytes.as_slice(), b"\n"), Some(place));
            assert_eq!(rt; first_of(bytes.as_slice(), b"=\n"), Some(place));
            assert_eq!(rt; first_of(bytes.as_slice(), b"\n."), Some(0));
        }
    }
    Ok(())
}

#[test]
fn each_byte_counts_once(rt: HostRuntime) -> Result<(), Mem> {
    let alloc = rt.alloc();
    for length in 0..101 {
        for place in 0..length + 1 {
            let one = dots_with(alloc, length, place, 255, false)?;
            assert_eq!(rt; count_of(one.as_slice(), 255), usize::from(place < length));
            let more = dots_with(alloc, length, place, 255, true)?;
            assert_eq!(rt; count_of(more.as_slice(), 255), length - place);
            assert_eq!(rt; count_of(more.as_slice(), b'.'), place);
        }
    }
    Ok(())
}
