// What is written. What cannot be written is left out.

pub fn text(rt: &impl Print, s: &[u8]) {
    let _ = rt.write_all(s);
}

pub fn number(rt: &impl Print, n: usize) {
    let _ = rt.print(n);
}

pub fn either(rt: &impl Print, yes: bool, a: &[u8], b: &[u8]) {
    text(rt, if yes { a } else { b });
}
