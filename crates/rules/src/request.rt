// The requests.
// Each request with what it needs of wLength. Whatever is not listed is Other, and stalls.
#[derive(Clone, Copy, Debug, PartialEq, Eq)]
pub enum Request {
    Dnload(u16),
    Upload(u16),
    GetStatus,
    GetState,
    ClrStatus,
    Abort,
    Other,
}
