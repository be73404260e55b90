//! The names of the ordinals of ws2_32.dll and wsock32.dll in the list that import hashes are computed with. Today's libraries name many
//! of them otherwise.

ghost use Rattle.std.specs.Prelude.{◌≡◌, option_map};
ghost use Rattle.pe_head.specs.Names.{name_in};
ghost use Rattle.pe_imphash.specs.Winsock.{winsock_names_1, winsock_names_2, winsock_name};

use pe_head::{Named, name_among};

/// Ordinals 1 to 59.
static WINSOCK_1: [Named; 59] = [
    (1, "accept"),
    (2, "bind"),
    (3, "closesocket"),
    (4, "connect"),
    (5, "getpeername"),
    (6, "getsockname"),
    (7, "getsockopt"),
    (8, "htonl"),
    (9, "htons"),
    (10, "ioctlsocket"),
    (11, "inet_addr"),
    (12, "inet_ntoa"),
    (13, "listen"),
    (14, "ntohl"),
    (15, "ntohs"),
    (16, "recv"),
    (17, "recvfrom"),
    (18, "select"),
    (19, "send"),
    (20, "sendto"),
    (21, "setsockopt"),
    (22, "shutdown"),
    (23, "socket"),
    (24, "GetAddrInfoW"),
    (25, "GetNameInfoW"),
    (26, "WSApSetPostRoutine"),
    (27, "FreeAddrInfoW"),
    (28, "WPUCompleteOverlappedRequest"),
    (29, "WSAAccept"),
    (30, "WSAAddressToStringA"),
    (31, "WSAAddressToStringW"),
    (32, "WSACloseEvent"),
    (33, "WSAConnect"),
    (34, "WSACreateEvent"),
    (35, "WSADuplicateSocketA"),
    (36, "WSADuplicateSocketW"),
    (37, "WSAEnumNameSpaceProvidersA"),
    (38, "WSAEnumNameSpaceProvidersW"),
    (39, "WSAEnumNetworkEvents"),
    (40, "WSAEnumProtocolsA"),
    (41, "WSAEnumProtocolsW"),
    (42, "WSAEventSelect"),
    (43, "WSAGetOverlappedResult"),
    (44, "WSAGetQOSByName"),
    (45, "WSAGetServiceClassInfoA"),
    (46, "WSAGetServiceClassInfoW"),
    (47, "WSAGetServiceClassNameByClassIdA"),
    (48, "WSAGetServiceClassNameByClassIdW"),
    (49, "WSAHtonl"),
    (50, "WSAHtons"),
    (51, "gethostbyaddr"),
    (52, "gethostbyname"),
    (53, "getprotobyname"),
    (54, "getprotobynumber"),
    (55, "getservbyname"),
    (56, "getservbyport"),
    (57, "gethostname"),
    (58, "WSAInstallServiceClassA"),
    (59, "WSAInstallServiceClassW"),
];

/// The name of one of the ordinals 1 to 59.
fn winsock_name_1(ordinal: u32) -> Option<&'static str>
    ensures { option_map (λ name. name.now) result ≡ name_in winsock_names_1 ordinal }
{
    name_among(&WINSOCK_1, ordinal)
}

/// Ordinals 60 to 500.
static WINSOCK_2: [Named; 58] = [
    (60, "WSAIoctl"),
    (61, "WSAJoinLeaf"),
    (62, "WSALookupServiceBeginA"),
    (63, "WSALookupServiceBeginW"),
    (64, "WSALookupServiceEnd"),
    (65, "WSALookupServiceNextA"),
    (66, "WSALookupServiceNextW"),
    (67, "WSANSPIoctl"),
    (68, "WSANtohl"),
    (69, "WSANtohs"),
    (70, "WSAProviderConfigChange"),
    (71, "WSARecv"),
    (72, "WSARecvDisconnect"),
    (73, "WSARecvFrom"),
    (74, "WSARemoveServiceClass"),
    (75, "WSAResetEvent"),
    (76, "WSASend"),
    (77, "WSASendDisconnect"),
    (78, "WSASendTo"),
    (79, "WSASetEvent"),
    (80, "WSASetServiceA"),
    (81, "WSASetServiceW"),
    (82, "WSASocketA"),
    (83, "WSASocketW"),
    (84, "WSAStringToAddressA"),
    (85, "WSAStringToAddressW"),
    (86, "WSAWaitForMultipleEvents"),
    (87, "WSCDeinstallProvider"),
    (88, "WSCEnableNSProvider"),
    (89, "WSCEnumProtocols"),
    (90, "WSCGetProviderPath"),
    (91, "WSCInstallNameSpace"),
    (92, "WSCInstallProvider"),
    (93, "WSCUnInstallNameSpace"),
    (94, "WSCUpdateProvider"),
    (95, "WSCWriteNameSpaceOrder"),
    (96, "WSCWriteProviderOrder"),
    (97, "freeaddrinfo"),
    (98, "getaddrinfo"),
    (99, "getnameinfo"),
    (101, "WSAAsyncSelect"),
    (102, "WSAAsyncGetHostByAddr"),
    (103, "WSAAsyncGetHostByName"),
    (104, "WSAAsyncGetProtoByNumber"),
    (105, "WSAAsyncGetProtoByName"),
    (106, "WSAAsyncGetServByPort"),
    (107, "WSAAsyncGetServByName"),
    (108, "WSACancelAsyncRequest"),
    (109, "WSASetBlockingHook"),
    (110, "WSAUnhookBlockingHook"),
    (111, "WSAGetLastError"),
    (112, "WSASetLastError"),
    (113, "WSACancelBlockingCall"),
    (114, "WSAIsBlocking"),
    (115, "WSAStartup"),
    (116, "WSACleanup"),
    (151, "__WSAFDIsSet"),
    (500, "WEP"),
];

/// The name of one of the ordinals 60 to 500.
fn winsock_name_2(ordinal: u32) -> Option<&'static str>
    ensures { option_map (λ name. name.now) result ≡ name_in winsock_names_2 ordinal }
{
    name_among(&WINSOCK_2, ordinal)
}

/// The name of an ordinal of ws2_32.dll and wsock32.dll, or `None` if it has none.
pub(crate) fn winsock_name(ordinal: u32) -> Option<&'static str>
    ensures { option_map (λ name. name.now) result ≡ winsock_name ordinal }
{
    if ordinal <= 59 {
        return winsock_name_1(ordinal);
    }
    winsock_name_2(ordinal)
}
