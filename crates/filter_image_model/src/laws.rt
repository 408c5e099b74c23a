//! Laws of the reading. They are proved and never called.
ghost use Rattle.filter_api.specs.Spellings.{IsDecided, SpellsOne};
ghost use Rattle.filter_model.specs.Image.{image};
ghost use Rattle.filter_image_model.specs.Laws.{BytesAreTheImage, ImageIsReadAgain, ImageWasWrittenSo, ImagesAreDecided, ImagesAreReadAgain, ImagesHaveOneList, ImagesWereWrittenSo, OneListATrie, TrieIsRead, WholeImageIsReadAgain, WholeImageWasWrittenSo, WholeImagesAreDecided, WholeImagesHaveOneList};
ghost use Rattle.filter_image_model.specs.Sections.{SectionsAreReadAgain, SectionsAreWritten};

/// Bytes that keep the rules on the bytes alone are the image of the nodes and suffixes that are read, and such an image
/// keeps them and is read as it was written.
pub fn sections_have_one_spelling()
    ensures written { SectionsAreWritten }
    ensures again { SectionsAreReadAgain }
{}

/// Where no rule is broken, the trie of the leaves that are read is the list of nodes that is read, and the bytes are the
/// image of these leaves.
pub fn the_trie_is_read()
    ensures trie { TrieIsRead }
    ensures image { BytesAreTheImage }
{}

/// Where no rule is broken, what is read may stand, and the bytes are its image.
pub fn the_image_was_written_so()
    ensures law { ImageWasWrittenSo }
{}

/// No two leaf lists have one trie and the same suffixes, and no two valid ones have one image.
pub fn an_image_has_one_list()
    ensures trie { OneListATrie }
    ensures image { SpellsOne image }
{}

/// The image of a valid list, with any cutoff from 0 to its height, breaks no rule and is read as that list. So of any bytes
/// it can be told whether they are an image.
pub fn an_image_is_read_again()
    ensures law { ImageIsReadAgain }
    ensures decided { IsDecided image }
{}

/// Of each kind: bytes that break none of its rules are the image of a list that it takes, and the image of such a list breaks
/// none and is read as that list. So of any bytes it can be told whether they are an image of the kind. No two leaf lists have
/// one image.
pub fn images_of_each_kind_are_read()
    ensures written { ImagesWereWrittenSo }
    ensures again { ImagesAreReadAgain }
    ensures decided { ImagesAreDecided }
    ensures one { ImagesHaveOneList }
{}

/// Where no rule of whole keys is broken, what is read is a leaf list without bits, and the bytes are its image.
pub fn whole_images_were_written_so()
    ensures law { WholeImageWasWrittenSo }
{}

/// The image of a leaf list without bits, with any cutoff from 0 to its height, breaks no rule of whole keys and is read as
/// that list. So of any bytes it can be told whether they are such an image.
pub fn whole_images_are_read_again()
    ensures law { WholeImageIsReadAgain }
    ensures decided { WholeImagesAreDecided }
{}

/// No two leaf lists without bits have one image.
pub fn whole_images_have_one_list()
    ensures { WholeImagesHaveOneList }
{}
