// Masks of a joined line: each the base mask OR the feature mask of the action.
#![tactic(auto)]

ghost use Rattle.std.specs.Prelude.{◌≡◌, length};
ghost use Rattle.masks.specs.Masks.{mask};
ghost use Rattle.masks.specs.Masks.{masks as masks_of};

use letters::Action;

// The mask of a record. Past the seven entries there is mask 0.
pub fn mask_of(features: &[u32; 7], base: u32, action: Action) -> u32
    ensures { result ≡ mask features.now base action.0 }
{
    let entry = action.0;
    if entry < 7 {
        return base | features[usize::from(entry)];
    }
    base
}

// The feature masks are lent to the loop: taken by value they would be copied for each record.
fn fill(features: &[u32; 7], base: &[u32], actions: &[u8], masks: &mut [u32])
    requires { (length base.now ≡ length actions.now) × (length base.now ≡ length masks.old) }
    ensures { masks.new ≡ masks_of features.now base.now actions.now }
{
    for i in 0..base.len() {
        masks[i] = mask_of(features, base[i], Action(actions[i]));
    }
}

// The masks of a line, whatever they were.
pub fn setup_masks(features: [u32; 7], base: &[u32], actions: &[u8], masks: &mut [u32])
    requires { (length base.now ≡ length actions.now) × (length base.now ≡ length masks.old) }
    ensures { masks.new ≡ masks_of features base.now actions.now }
{
    fill(&features, base, actions, masks);
}
