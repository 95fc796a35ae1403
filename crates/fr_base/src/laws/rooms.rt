//! What follows where the room for a frame is refused.
ghost use Rattle.fr_base.specs.RefusedRooms.{NoRoomWhereReleased, RefusedRoomRefusesEach};

/// Where the room for a frame is refused, so is each Place of the frame, with whatever repetition.
pub fn refused_room_refuses_each()
    ensures { RefusedRoomRefusesEach }
{}

/// A released variant has no room.
pub fn no_room_where_released()
    ensures { NoRoomWhereReleased }
{}
