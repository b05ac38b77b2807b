use pv_made::sample_system;
use std::process::Abort;
use std::test::Fail;

// Two circles from 1, drawn by hand: 16838, 5758, 10113, 17515, 31051, 5627.
const TWO: &str =
    "Variables x in [0,1024], y in [0,1024];\nConstraints\n(x-838)^2+(y-758)^2 >= 26569;\n(x-515)^2+(y-51)^2 >= 5929;\nend\n";

#[test]
fn two_circles(rt: HostRuntime) -> Result<(), Fail> {
    assert_eq!(rt; sample_system(rt.alloc(), 1, 2)?.as_slice(), TWO.as_bytes());
    Ok(())
}

// As Python's whole numbers give it.
const LAST: &str =
    "Variables x in [0,1024], y in [0,1024];\nConstraints\n(x-929)^2+(y-409)^2 >= 12544;\nend\n";

#[test]
fn the_last_number(rt: HostRuntime) -> Result<(), Fail> {
    assert_eq!(rt;
        sample_system(rt.alloc(), 2_147_483_647, 1)?.as_slice(),
        LAST.as_bytes()
    );
    Ok(())
}
