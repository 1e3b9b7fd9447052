// What a record says.
// "Load Offset", "Record Type" and "Record length"; the data stands beside them, in the reader's room.
// Stays: the type is a byte, since a record may have any, and the length stands beside a room that the caller lends: there is no heap.
#[derive(Clone, Copy, Debug, PartialEq, Eq)]
pub struct Fields {
    pub offset: u16,
    pub kind: u8,
    pub length: usize,
}
