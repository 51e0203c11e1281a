//! The example on the page of `ply_rows`.

use num_text::whole;
use ply_head::read_head;
use ply_rows::*;
use std::test::Fail;

#[test]
fn example_of_ply_rows(rt: HostRuntime) -> Result<(), Fail> {
    let file =
        b"ply\nformat ascii 1.0\nelement vertex 2\nproperty int x\nproperty int y\nend_header\n3 4\n5 6\n";
    let (head, start) = read_head(rt.alloc(), file)?;
    let mut rows = Rows::new(&head, &file[start..]);
    let mut fields = Vec::new(rt.alloc());
    let mut heights = Vec::new(rt.alloc());
    while let Some(_) = rows.next_row(&mut fields)? {
        if let Some(y) = fields.get(1) {
            heights.push(whole(rows.bytes(*y))?)?;
        }
    }
    assert_eq!(rt; heights.as_slice(), [4, 6].as_slice());
    Ok(())
}
