// The four buffers that a render is lent. That they have one length (`IsAlike`) is asked where they are written and is no invariant: a call may lend any.
#[derive(Drop)]
pub struct Buffers<'a> {
    pub temp: &'a mut [f32],
    pub temp_2: &'a mut [f32],
    pub out: &'a mut [f32],
    pub aux: &'a mut [f32],
}
