// What holds of images, on the contract of a function that does nothing.
ghost use Rattle.images.specs.Images.{ImagesReadBack};

// The rows of a meaning are read back from its image.
pub fn images_read_back()
    ensures { ImagesReadBack }
{}
