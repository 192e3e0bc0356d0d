use cable_tree::{Above, Port, Tree, TreeRow};
use std::alloc::Global;

/// The sum of the spans, arrivals and port times of so many trees.
pub(crate) fn path_sums(alloc: Global, times: u32) -> Option<u64> {
    let line = rows(alloc, 1)?;
    let broad = rows(alloc, 3)?;
    let mut sum: u64 = 0;
    for turn in 0..times {
        let rows = if turn % 2 == 0 { &line } else { &broad };
        sum = sum.wrapping_add(sums_of(alloc, rows)?);
    }
    Some(sum)
}

// 256 slaves with so many children each, as long as there are slaves.
fn rows(alloc: Global, children: u16) -> Option<Vec<TreeRow>> {
    let ports = [Port::P3, Port::P1, Port::P2];
    let mut rows = Vec::new(alloc);
    for row in 0..256 {
        let above = match row {
            0 => None,
            _ => Some(Above {
                row: (row - 1) / children.max(1),
                port: ports[usize::from((row - 1) % children.max(1)) % 3],
            }),
        };
        rows.push(TreeRow::new(above, 310, 300, 50_000)?).ok()?;
    }
    Some(rows)
}

// The path sums of the tree of these rows.
fn sums_of(alloc: Global, rows: &[TreeRow]) -> Option<u64> {
    if rows.len() > 256 {
        return None;
    }
    let tree = Tree::new(alloc, rows).ok()?;
    let mut sum = tree.round_trip();
    for &row in tree.order() {
        if usize::from(row) >= tree.len() {
            return None;
        }
        sum = sum
            .wrapping_add(tree.span(row))
            .wrapping_add(tree.arrive(row));
        for port in [Port::P3, Port::P1, Port::P2] {
            sum = sum.wrapping_add(tree.port_time(row, port).unwrap_or(0));
        }
    }
    Some(sum)
}
