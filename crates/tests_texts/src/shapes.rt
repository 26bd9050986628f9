// Each drawing is well formed. What drawings show is in the scripts `pictures` and `course`.

use model::Model;
use models::{Phold, TokenRing};
use pictures::{View, diagram_of, load_of, write_drawing, write_load};
use std::alloc::{AllocError, Global};
use std::test::Fail;

/// Whether the tags of a text balance, its attributes are quoted, and it has no stray `<`, `>` or
/// `&`.
pub fn is_well_formed(alloc: Global, text: &str) -> Result<bool, AllocError> {
    let mut open: Vec<&str> = Vec::new(alloc);
    let mut good = text.starts_with('<') && !text.contains('&');
    for piece in text.split('<').skip(1) {
        good = good && goes_on(&mut open, piece)?;
    }
    Ok(good && open.is_empty())
}

/// Whether a piece after `<` may stand below the open tags, which are those after it then.
fn goes_on<'a>(open: &mut Vec<&'a str>, piece: &'a str) -> Result<bool, AllocError> {
    let Some((tag, content)) = piece.split_once('>') else {
        return Ok(false);
    };
    if tag.split('"').count() % 2 == 0 || content.contains('>') {
        return Ok(false);
    }
    let (name, _) = tag.split_once(' ').unwrap_or((tag, ""));
    if let Some(closed) = name.strip_prefix('/') {
        return Ok(open.pop() == Some(closed));
    }
    if !tag.ends_with('/') {
        open.push(name)?;
    }
    Ok(true)
}

#[test]
fn the_parser_refuses_what_is_not_well_formed(rt: HostRuntime) -> Result<(), Fail> {
    let alloc = rt.alloc();
    assert!(rt; is_well_formed(alloc, "<a b=\"1\"><c/>x</a>\n")?);
    for text in "<a><b></a></b> <a> <a_b=\"1></a> <a>&</a>".split(' ') {
        assert!(rt; !is_well_formed(alloc, text)?, "{text}");
    }
    Ok(())
}

/// Views: the first tick, the last one or 0 where a view has no end, and the first and last process.
const VIEWS: [(u64, u64, u32, u32); 11] = [
    (0, 12, 0, 2),
    (0, 100, 0, 99),
    (0, 10_000, 0, 1000),
    (50, 50, 0, 99),
    (90, 10, 3, 2),
    (u64::MAX, u64::MAX, 0, 0),
    (0, u64::MAX, u32::MAX, u32::MAX),
    (7, 19, 5, 80),
    (0, 0, 0, 99),
    (u64::MAX, 0, 0, 0),
    (7, 0, 5, 80),
];

/// Whether the drawing of a view of a model's run up to `to` ticks is well formed.
fn is_drawn<M: Model>(alloc: Global, model: &M, to: u64, view: &View) -> Result<bool, Fail> {
    let mut bytes = Vec::new(alloc);
    let diagram = diagram_of(alloc, model, 200, to, u64::MAX, view)?;
    write_drawing(&diagram, &mut bytes)?;
    Ok(is_well_formed(alloc, String::from_utf8(bytes)?.as_str())?)
}

/// The view at a place.
fn view_at(place: usize) -> View {
    let (from, to, first, last) = VIEWS[place % VIEWS.len()];
    View {
        from,
        to: if to == 0 { None } else { Some(to) },
        first,
        last,
    }
}

/// The place of the first view that is not drawn well.
fn wrong_view<M: Model>(alloc: Global, model: &M, to: u64) -> Result<Option<usize>, Fail> {
    for place in 0..VIEWS.len() {
        if !is_drawn(alloc, model, to, &view_at(place))? {
            return Ok(Some(place));
        }
    }
    Ok(None)
}

#[test]
fn each_picture_is_well_formed(rt: HostRuntime) -> Result<(), Fail> {
    assert_eq!(rt;
        wrong_view(rt.alloc(), &Phold::new(100, 3, 9, 5), 150)?,
        None
    );
    assert_eq!(rt; wrong_view(rt.alloc(), &Phold::new(1, 1, 9, 5), 0)?, None);
    assert_eq!(rt; wrong_view(rt.alloc(), &TokenRing::new(3, 2, 1), 10)?, None);
    Ok(())
}

/// Whether the heat map of a view is well formed.
fn is_mapped(alloc: Global, model: &Phold, view: &View) -> Result<bool, Fail> {
    let mut bytes = Vec::new(alloc);
    let load = load_of(alloc, model, 200, 150, u64::MAX, view)?;
    write_load(&load, &mut bytes)?;
    Ok(is_well_formed(alloc, String::from_utf8(bytes)?.as_str())?)
}

#[test]
fn each_heat_map_is_well_formed(rt: HostRuntime) -> Result<(), Fail> {
    let phold = Phold::new(100, 3, 9, 5);
    for place in 0..VIEWS.len() {
        assert!(rt; is_mapped(rt.alloc(), &phold, &view_at(place))?, "{place}");
    }
    Ok(())
}
