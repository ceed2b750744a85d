// The column of a dossier's attributes, and the search in one: what no program calls.
ghost use Rattle.tables.specs.View.{AttributesSound};

use crate::saved;
use image::columns::{is_object_among, objects_of};
use std::test::Fail;
use tables::Attributes;

// The number of the address 1, as a record has it: a length of 1, then the step 1, and no further steps.
const ONE: u64 = 0x0001_0100_0000_0000;

// The root and the node 1, each with an attribute: the root's is named 3, the other 2.
fn two_attributes() -> [u8; 160] {
    let mut image = [0; 160];
    // two nodes
    image[0] = 1;
    image[10] = 7;
    image[40] = 1;
    image[41] = 1;
    image[42] = 1;
    image[50] = 7;
    // two attributes, whole numbers
    image[80] = 2;
    image[89] = 3;
    image[90] = 7;
    image[94] = 1;
    image[120] = 2;
    image[121] = 1;
    image[122] = 1;
    image[129] = 2;
    image[130] = 9;
    image[134] = 1;
    image
}

#[test]
fn objects_in_order(rt: HostRuntime) -> Result<(), Fail> {
    let d = saved::load(&two_attributes()).map_err(|bad| bad.number)?;
    let objects = objects_of(d.attributes);
    assert_eq!(rt; objects[0], (0, 3));
    assert_eq!(rt; objects[1], (ONE, 2));
    assert_eq!(rt; objects[2], (0, 0));
    Ok(())
}

// Whether the table has an attribute of that name at the address of that number.
fn is_held(t: Attributes, k: u64, name: u16) -> bool
    requires { AttributesSound t }
{
    let objects = objects_of(t);
    is_object_among(&objects[..t.count], k, name)
}

#[test]
fn objects_searched(rt: HostRuntime) -> Result<(), Fail> {
    let d = saved::load(&two_attributes()).map_err(|bad| bad.number)?;
    assert!(rt; is_held(d.attributes, 0, 3));
    assert!(rt; is_held(d.attributes, ONE, 2));
    assert!(rt;
        !is_held(d.attributes, 0, 2),
        "the root's attribute is named 3"
    );
    assert!(rt;
        !is_held(d.attributes, ONE, 3),
        "the attribute of the node 1 is named 2"
    );
    assert!(rt; !is_held(d.attributes, ONE + 1, 2), "no node is there");
    Ok(())
}
