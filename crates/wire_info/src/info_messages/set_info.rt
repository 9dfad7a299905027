/// The SET_INFO request (MS-SMB2 2.2.39). `payload` is the information, by its class.
#[derive(Clone, Copy, Debug, PartialEq, Eq)]
pub struct SetInfoRequest<'a> {
    pub info_type: u8,
    pub file_info_class: u8,
    pub additional_information: u32,
    pub file_id: [u8; 16],
    pub payload: &'a [u8],
}
