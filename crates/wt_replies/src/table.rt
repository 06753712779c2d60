/// An entry of the caller's table: what is under a name.
#[repr(C)]
#[derive(Clone, Copy, Debug)]
pub struct Page<'a> {
    /// The full name, in UTF-8.
    pub name: &'a [u8],
    /// The bytes of the page.
    pub text: &'a [u8],
    /// 1: the page is `text`; 0: no page has the name; any other: it could not be fetched.
    pub state: u8,
}
