//! What refuses a call on a segment, by its homes.

ghost use Rattle.std.specs.Prelude.{◌≡◌, not};
ghost use Rattle.std.specs.List.{list_any};
ghost use Rattle.std.specs.Option.{option_map};
ghost use Rattle.journal_model.specs.declared.notes.Home.TheVariants.{Leader, Node};
ghost use Rattle.journal_model.specs.Layouts.{is_home};
ghost use Rattle.journal_model.specs.Refusals as refusals;
ghost use Rattle.shard_core.specs.Found.{not_among, move_refused, load_refused, on_nodes_refused, release_refused};
ghost use Rattle.shard_core.specs.Least.{least_after, least_next};

use journal_model::{Home, MoveError};

/// Why a move of a segment from a home is refused; `homes` are those of a segment that is there.
pub(crate) fn why_not_moved(segment: u64, homes: Option<&[Home]>, from: Home) -> Option<MoveError>
    ensures { result ≡ move_refused segment (option_map (λ found. found.now) homes.entry) from }
{
    match homes {
        Some(homes) => why_not_from(segment, homes, from),
        None => Some(MoveError::Gone { segment }),
    }
}

/// Why a segment is not loaded on a node from a home.
pub(crate) fn why_not_loaded(
    segment: u64,
    homes: Option<&[Home]>,
    from: Home,
    node: u32,
) -> Option<MoveError>
    ensures { result ≡ load_refused segment (option_map (λ found. found.now) homes.entry) from node }
{
    let Some(homes) = homes else {
        return Some(MoveError::Gone { segment });
    };
    if let Some(why) = why_not_from(segment, homes, from) {
        return Some(why);
    }
    if is_at(homes, Home::Node(node)) {
        return Some(MoveError::Already { segment, node });
    }
    None
}

/// Why the place of a segment on a node is not released.
pub(crate) fn why_not_released(segment: u64, homes: Option<&[Home]>, node: u32) -> Option<MoveError>
    ensures { result ≡ release_refused segment (option_map (λ found. found.now) homes.entry) node }
{
    let Some(homes) = homes else {
        return Some(MoveError::Gone { segment });
    };
    if let Some(why) = why_not_from(segment, homes, Home::Node(node)) {
        return Some(why);
    }
    if is_elsewhere(homes, node) {
        return None;
    }
    Some(MoveError::LastPlace { segment })
}

/// Why a segment is not merged; `homes` are those of a segment that is there.
pub(crate) fn why_not_merged(segment: u64, homes: Option<&[Home]>) -> Option<MoveError>
    ensures { result ≡ on_nodes_refused segment (option_map (λ found. found.now) homes.entry) }
{
    match homes {
        Some(homes) => {
            if is_on_nodes(homes) {
                return None;
            }
            Some(MoveError::Gone { segment })
        }
        None => Some(MoveError::Gone { segment }),
    }
}

fn is_on_nodes(homes: &[Home]) -> bool
    ensures { result ≡ list_any (λ home. not (is_home Leader home)) homes.now }
{
    homes.iter().any(|home| !is_same(Home::Leader, *home))
}

/// Why a segment with these homes is not moved from one.
fn why_not_from(segment: u64, homes: &[Home], from: Home) -> Option<MoveError>
    ensures { result ≡ not_among segment homes.now from }
{
    if is_at(homes, from) {
        return None;
    }
    match from {
        Home::Leader => Some(MoveError::Already {
            segment,
            node: least_node(homes),
        }),
        Home::Node(node) => Some(MoveError::NotThere { segment, node }),
    }
}

fn is_at(homes: &[Home], home: Home) -> bool
    ensures { result ≡ list_any (is_home home) homes.now }
{
    homes.iter().any(|other| is_same(home, *other))
}

fn is_elsewhere(homes: &[Home], node: u32) -> bool
    ensures { result ≡ list_any (λ home. not (is_home (Node node) home)) homes.now }
{
    homes.iter().any(|other| !is_same(Home::Node(node), *other))
}

fn is_same(home: Home, other: Home) -> bool
    ensures { result ≡ is_home home other }
{
    match (home, other) {
        (Home::Leader, Home::Leader) => true,
        (Home::Node(node), Home::Node(there)) => node == there,
        _ => false,
    }
}

/// The least node among some homes; 0 where there is none.
fn least_node(homes: &[Home]) -> u32
    ensures { result ≡ refusals.least_node homes.now }
{
    let mut least = None;
    'homes: for home in homes {
        least = lesser(least, *home);
    }
    least.unwrap_or(0)
}

fn lesser(least: Option<u32>, home: Home) -> Option<u32>
    ensures { result ≡ least_next least home }
{
    match (least, home) {
        (Some(node), Home::Node(other)) => Some(node.min(other)),
        (None, Home::Node(node)) => Some(node),
        _ => least,
    }
}
