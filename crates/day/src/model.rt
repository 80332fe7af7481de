// What a text of a day says: its marks, as a part of the text, and the office of each lot.
#[derive(Drop)]
pub struct Day<'a> {
    pub marks: &'a [u8],
    pub lots: Vec<u32>,
}
