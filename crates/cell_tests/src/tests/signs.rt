//! The example on the page of `geo_sign`.

use geo_sign::{Point, Sign, in_sphere, orient};
use std::test::Fail;

#[test]
fn example_of_geo_sign(rt: HostRuntime) -> Result<(), Fail> {
    let a = Point::data(0, 0, 0).ok_or("a data point")?;
    let b = Point::data(100, 0, 0).ok_or("a data point")?;
    let c = Point::data(0, 100, 0).ok_or("a data point")?;
    let d = Point::data(0, 0, 100).ok_or("a data point")?;
    assert!(rt; orient(a, b, c, d).is_pos());
    assert!(rt; orient(a, c, b, d).is_neg());

    let inside = Point::data(99, 99, 99).ok_or("a data point")?;
    let on = Point::data(100, 100, 100).ok_or("a data point")?;
    let outside = Point::data(101, 101, 101).ok_or("a data point")?;
    assert!(rt; in_sphere(a, b, c, d, inside).is_neg());
    assert_eq!(rt; in_sphere(a, b, c, d, on), Sign::Zero);
    assert!(rt; in_sphere(a, b, c, d, outside).is_pos());
    Ok(())
}
