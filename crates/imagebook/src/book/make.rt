// Making a book on an image, and handing the bytes back.
ghost use Rattle.std.specs.Prelude.{◌≡◌, ◌-◌, ◌/◌, min, [], None};
ghost use Rattle.cashbook.specs.Counting.{figure, figures};
ghost use Rattle.cashbook.specs.Meaning.{meaning};
ghost use Rattle.cashbook.specs.Questions.{room_answer};
ghost use Rattle.images.specs.Images.{image_capacity, put_header, Exact};
ghost use Rattle.imagebook.specs.Memory.{memory, means_of, ImagesAreExact};

use super::ImageBook;
use super::writing::write_header;
use cashbook::{BookFault, Counts, test_room};
use images::HEADER_LENGTH;
use rowbytes::ROW_LENGTH;

// The numbers of an empty book on so many bytes.
fn empty_counts(length: usize) -> Counts
    ensures { figures result ≡ figure (min ((length - 32) / 256) 100000) 0 None }
{
    Counts::empty(length.saturating_sub(HEADER_LENGTH) / ROW_LENGTH)
}

impl<'a> ImageBook<'a> {
    // Whether the bytes have room for a row; a book on others can be made all the same, and has no capacity.
    pub fn test(bytes: &[u8]) -> Result<(), BookFault>
        ensures { result ≡ room_answer (image_capacity bytes.now) }
    {
        test_room(empty_counts(bytes.len()).capacity())
    }

    // An empty book on the bytes. They get a header where there is room for one.
    pub fn new(bytes: &'a mut [u8]) -> Self
        ensures empty { means_of result ≡ meaning (image_capacity bytes.old) [] None }
        ensures memory { memory result ≡ put_header (figure (image_capacity bytes.old) 0 None) bytes.old }
    {
        let counts = empty_counts(bytes.len());
        write_header(bytes, &counts);
        ImageBook { bytes, counts }
    }

    // Hands the bytes back, exactly those of the book's meaning.
    pub fn close(self) -> &'a mut [u8]
        ensures same { result.now ≡ memory self.entry }
        ensures exact { Exact (means_of self.entry) result.now }
    {
        self.bytes
    }
}

// Whatever calls made it, the image of a book is exactly that of its meaning.
pub fn images_are_exact()
    ensures { ImagesAreExact }
{}
