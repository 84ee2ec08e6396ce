// Strips by example.
use crate::trial::{Row, check, shown};
use std::alloc::AllocError;

#[test]
fn strips_are_judged(rt: HostRuntime) -> Result<(), AllocError> {
    let rows: [(&[&str], &[u8]); 5] = [
        (
            &["drill", "--count=1"],
            b"faces 1 creases 0 orders 0 verdict yes\n",
        ),
        (
            &["drill", "--count=2"],
            b"faces 2 creases 1 orders 1 verdict yes\n",
        ),
        (
            &["drill", "--count=5"],
            b"faces 5 creases 4 orders 10 verdict yes\n",
        ),
        (
            &["drill", "--count=100"],
            b"faces 100 creases 99 orders 4950 verdict yes\n",
        ),
        (
            &["drill"],
            b"faces 100 creases 99 orders 4950 verdict yes\n",
        ),
    ];
    for (words, output) in rows {
        // Each read would fail.
        let row = Row {
            words,
            failing_takes: &[1],
            ..shown(b"{}", output)
        };
        check(&rt, rt.alloc(), row)?;
    }
    Ok(())
}
