//! `Window`: up to 512 bytes of an image, read at once for numbers that follow one another.

ghost use Rattle.std.specs.Prelude.{◌≡◌, ◌+◌, ◌-◌, ◌≤◌, IsTrue, min};
ghost use Rattle.pe_view.specs.View.{bytes_of, size_of};
ghost use Rattle.pe_layout.specs.Image.{LaidOut, bytes_at, number_at};
ghost use Rattle.pe_layout.specs.Layout.{image_of};
ghost use Rattle.pe_tables.specs.Window.{IsWindowOf, Holds};

use pe_layout::Layout;
use pe_view::View;

/// The most bytes that are read at once.
const LEN: u32 = 512;

/// Bytes of an image that were read at once. Numbers that follow one another are taken from them; only for one outside is the image
/// searched for the piece that has it.
#[derive(Drop)]
pub(crate) struct Window {
    /// The RVA of the first byte.
    pub start: u32,
    /// How many bytes were read.
    pub len: u32,
    /// The bytes, at the beginning.
    pub bytes: [u8; LEN as usize],
}

impl Window {
    /// A window of no bytes.
    pub fn new() -> Window
        ensures { (image : LaidOut) → IsWindowOf image result }
    {
        Window {
            start: 0,
            len: 0,
            bytes: [0; LEN as usize],
        }
    }

    /// Reads the bytes at an RVA.
    #[cold]
    #[inline(never)]
    fn read(&mut self, layout: &Layout, rva: u32)
        requires { rva ≤ (image_of layout.now).size }
        ensures start { self.new.start ≡ rva }
        ensures len { self.new.len ≡ min 512 ((image_of layout.now).size - rva) }
        ensures window { IsWindowOf (image_of layout.now) self.new }
    {
        self.start = rva;
        self.len = LEN.min(layout.size() - rva);
        layout.fill(rva, &mut self.bytes[..self.len as usize]);
    }

    /// Whether it holds these bytes of the image.
    fn holds(&self, rva: u32, width: u32) -> bool
        ensures { IsTrue result → Holds self.now rva width }
    {
        let end = u64::from(self.start) + u64::from(self.len);
        self.start <= rva && u64::from(rva) + u64::from(width) <= end
    }

    /// Reads these bytes of the image, unless it holds them.
    #[inline(always)]
    fn hold(&mut self, layout: &Layout, rva: u32, width: u32)
        requires window { IsWindowOf (image_of layout.now) self.old }
        requires inside { rva + width ≤ (image_of layout.now).size }
        requires few { width ≤ 4 }
        ensures window { IsWindowOf (image_of layout.now) self.new }
        ensures holds { Holds self.new rva width }
    {
        if !self.holds(rva, width) {
            self.read(layout, rva);
        }
    }

    /// The bytes that were read.
    fn view(&self) -> View<'_>
        requires { self.now.len ≤ 512 }
        ensures bytes { (image : LaidOut) → IsWindowOf image self.now → bytes_of result ≡ bytes_at image self.now.start self.now.len }
        ensures size { (image : LaidOut) → IsWindowOf image self.now → size_of result ≡ self.now.len }
    {
        View::new(&self.bytes[..self.len as usize])
    }

    /// The little-endian number in the 2 bytes at an RVA.
    pub fn u16_at(&mut self, layout: &Layout, rva: u32) -> u16
        requires window { IsWindowOf (image_of layout.now) self.old }
        requires inside { rva + 2 ≤ (image_of layout.now).size }
        ensures window { IsWindowOf (image_of layout.now) self.new }
        ensures number { result ≡ number_at 2 (image_of layout.now) rva }
    {
        self.hold(layout, rva, 2);
        self.view().u16_at(u64::from(rva - self.start)).unwrap()
    }

    /// The little-endian number in the 4 bytes at an RVA.
    pub fn u32_at(&mut self, layout: &Layout, rva: u32) -> u32
        requires window { IsWindowOf (image_of layout.now) self.old }
        requires inside { rva + 4 ≤ (image_of layout.now).size }
        ensures window { IsWindowOf (image_of layout.now) self.new }
        ensures number { result ≡ number_at 4 (image_of layout.now) rva }
    {
        self.hold(layout, rva, 4);
        self.view().u32_at(u64::from(rva - self.start)).unwrap()
    }
}
