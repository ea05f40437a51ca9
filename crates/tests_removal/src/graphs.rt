//! Tests of what is reached. The graphs are drawn by hand, and what is reached in them is read off.

use reaching::Graph;
use std::alloc::Global;
use std::test::*;

/// A graph of so many items, with these edges.
fn graph(alloc: Global, items: usize, edges: &[(u32, u32)]) -> Result<Graph, Fail> {
    let mut graph = Graph::new(alloc, items)?;
    for (from, to) in edges {
        graph.add(*from, *to)?;
    }
    Ok(graph)
}

#[test]
fn chains_circles_and_roots(rt: HostRuntime) -> Result<(), Fail> {
    // 0 -> 1 -> 2 -> 0, 3 -> 4, 4 -> 4, and 5 alone
    let edges = [(0, 1), (1, 2), (2, 0), (3, 4), (4, 4)];
    let graph = graph(rt.alloc(), 6, &edges)?;
    let cases: [(&[u32], [bool; 6]); 6] = [
        (&[], [false, false, false, false, false, false]),
        (&[1], [true, true, true, false, false, false]),
        (&[3], [false, false, false, true, true, false]),
        (&[4], [false, false, false, false, true, false]),
        (&[5, 4, 5], [false, false, false, false, true, true]),
        (
            &[6, 2, 4_000_000_000],
            [true, true, true, false, false, false],
        ),
    ];
    for (roots, reached) in cases {
        let marks = graph.reachable(rt.alloc(), roots)?;
        assert_eq!(rt; marks.as_slice(), reached.as_slice());
    }
    Ok(())
}

#[test]
fn edges_of_no_item(rt: HostRuntime) -> Result<(), Fail> {
    let mut graph = Graph::new(rt.alloc(), 2)?;
    assert_eq!(rt; graph.add(0, 2)?, false);
    assert_eq!(rt; graph.add(2, 0)?, false);
    assert_eq!(rt; graph.add(1, 0)?, true);
    let marks = graph.reachable(rt.alloc(), &[1])?;
    assert_eq!(rt; marks.as_slice(), [true, true].as_slice());
    Ok(())
}
