// Images as the vectors have them: good ones load and save as they were, bad ones are blamed on the right record.
ghost use Rattle.std.specs.Prelude.{◌≤◌, IfSome};

use crate::{files, saved};
use std::io::Read;
use std::rt::Files;
use std::{fs, io};

// More than any file has.
const MOST: usize = 100000;

// ---- good images

// What came of one image.
#[derive(Clone, Copy)]
struct Tried {
    records: usize,
    wrong: usize,
}

#[derive(Clone, Copy)]
struct Tally {
    images: usize,
    records: usize,
    wrong: usize,
}

fn is_right(image: &[u8]) -> bool {
    match saved::load(image) {
        Ok(d) => saved::saves_as(d, image),
        Err(_) => false,
    }
}

fn one_if(wrong: bool) -> usize
    ensures { result ≤ 1 }
{
    if wrong { 1 } else { 0 }
}

// None where the file has ended.
fn try_good(file: &mut impl Read) -> Option<Tried>
    ensures { IfSome result (λ t. (t.records ≤ 450) × (t.wrong ≤ 1)) }
{
    let size = files::number(file)?;
    let mut space = files::space();
    let n = files::bytes(file, size, &mut space);
    let right = is_right(&space[..n]) & (n == size);
    Some(Tried {
        records: n / 40,
        wrong: one_if(!right),
    })
}

fn try_all(file: &mut impl Read) -> Tally {
    let mut all = Tally {
        images: 0,
        records: 0,
        wrong: 0,
    };
    for images in 1..=MOST {
        let Some(t) = try_good(file) else {
            return all;
        };
        all = Tally {
            images,
            records: all.records + t.records,
            wrong: all.wrong + t.wrong,
        };
    }
    all
}

// A file that cannot be opened has no images.
pub fn good(rt: &(impl Files + Print)) {
    let t = match fs::open(rt, "good.images") {
        Ok(mut file) => try_all(&mut file),
        Err(_) => try_all(&mut io::empty()),
    };
    let _ = println!(rt;
        "good: {} images, {} records, {} wrong",
        t.images, t.records, t.wrong
    );
}

// ---- bad images

// What was blamed, and whether that is wrong; a good answer is wrong.
#[derive(Clone, Copy)]
struct Blamed {
    record: usize,
    wrong: usize,
}

// None where the file has ended.
fn try_bad(file: &mut impl Read) -> Option<Blamed>
    ensures { IfSome result (λ t. t.wrong ≤ 1) }
{
    let record = files::number(file)?;
    // a file that ends here has an image of no bytes
    let size = files::number(file).unwrap_or(0);
    let mut space = files::space();
    let n = files::bytes(file, size, &mut space);
    let (good, blamed) = match saved::load(&space[..n]) {
        Ok(_) => (true, 0),
        Err(bad) => (false, bad.number),
    };
    let right = !good & ((blamed == record) & (n == size));
    Some(Blamed {
        record: blamed,
        wrong: one_if(!right),
    })
}

fn blame(table: &mut [usize; 449], record: usize) {
    if let Some(images) = table.get_mut(record) {
        *images = images.saturating_add(1);
    }
}

fn blame_all(file: &mut impl Read, table: &mut [usize; 449]) -> Tally {
    let mut all = Tally {
        images: 0,
        records: 0,
        wrong: 0,
    };
    for images in 1..=MOST {
        let Some(t) = try_bad(file) else {
            return all;
        };
        all = Tally {
            images,
            records: 0,
            wrong: all.wrong + t.wrong,
        };
        blame(table, t.record);
    }
    all
}

fn show_table(rt: &impl Print, table: &[usize; 449]) {
    for (record, images) in table.iter().enumerate() {
        if *images != 0 {
            let _ = println!(rt; "record {record}: {images}");
        }
    }
}

// The images of a file; one that cannot be opened has none.
fn blamed_in(rt: &impl Files, file: &str, table: &mut [usize; 449]) -> Tally {
    match fs::open(rt, file) {
        Ok(mut images) => blame_all(&mut images, table),
        Err(_) => blame_all(&mut io::empty(), table),
    }
}

pub fn bad(rt: &(impl Files + Print), name: &str, file: &str) {
    let mut table = [0; 449];
    let t = blamed_in(rt, file, &mut table);
    let _ = println!(rt; "{name}: {} images, {} wrong", t.images, t.wrong);
    show_table(rt, &table);
}
