// What a period's net powers are settled by.
use super::factor::Factor;
use super::powers::Level;

// The factor that certifies them, and the level that they are held against.
#[derive(Clone, Copy)]
pub struct Terms {
    pub factor: Factor,
    pub level: Level,
}
