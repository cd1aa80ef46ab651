//! The texts of a copy.
ghost use Rattle.std.specs.Prelude.{◌≡◌};
ghost use Rattle.std.specs.Option.{option_copied, option_map};
ghost use Rattle.mq_world.specs.Views.{copy_of};

use mq_topic::LevelText;
use mq_world::Delivery;

pub fn topic_of(delivery: &Delivery) -> &str
    ensures { result.now ≡ (copy_of delivery.now).topic }
{
    delivery.topic.text()
}

pub fn share_of(delivery: &Delivery) -> Option<&str>
    ensures { option_copied result
        ≡ option_map (λ group. group.share) (copy_of delivery.now).group }
{
    match &delivery.group {
        Some((share, _)) => Some(share.as_str()),
        None => None,
    }
}

pub fn filter_of(delivery: &Delivery) -> Option<&str>
    ensures { option_copied result
        ≡ option_map (λ group. group.filter) (copy_of delivery.now).group }
{
    match &delivery.group {
        Some((_, filter)) => Some(filter.text()),
        None => None,
    }
}
