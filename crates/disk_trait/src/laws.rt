//! Laws of images; the functions do nothing.
ghost use Rattle.disk_trait.specs.Laws.{ReadsBack, ReadsElsewhere, MayBeTorn, TearsTwice};

/// The laws of images: what was written is read, what stands elsewhere is as it was, a whole write is one of those that
/// may be cut short, and two that are cut short in one range are as one. It does nothing.
pub fn image_laws()
    ensures reads_back { ReadsBack }
    ensures reads_elsewhere { ReadsElsewhere }
    ensures may_be_torn { MayBeTorn }
    ensures tears_twice { TearsTwice }
{}
