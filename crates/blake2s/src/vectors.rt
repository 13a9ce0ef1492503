// Published digests, computed from the definition.
ghost use Rattle.blake2s.specs.Vectors.{EmptyMessage, MessageAbc};

pub fn the_empty_message_has_its_published_digest() -> u8
    ensures { EmptyMessage }
{
    0
}

pub fn abc_has_its_published_digest() -> u8
    ensures { MessageAbc }
{
    0
}
