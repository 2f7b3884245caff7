//! What an image means that stores records which tell what entities are at their versions, whatever made them so. The function does
//! nothing: its contract is the law.
#![tactic(auto)]

ghost use Rattle.store_told.specs.Told.{ToldImageLaw};

/// An image that stores told records means the state of their greatest closed choice, where that is sound.
pub fn told_image_law()
    ensures { ToldImageLaw }
{}
