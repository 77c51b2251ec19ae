//! Tests of paths that cannot be an argument of the program, and of others where nothing exists.

use latex2mathml::convert_html;
use std::test::Fail;

#[test]
fn paths_where_nothing_stands(rt: HostRuntime) -> Result<(), Fail> {
    for path in ["", "\0.html", "none.html"] {
        assert!(rt; convert_html(&rt, rt.alloc(), path)?.is_empty());
    }
    Ok(())
}
